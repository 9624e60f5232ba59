// A light: the level that a display shows, and the task that waits for a reading. What an arrival makes of it, by its
// code and its word: at once, or in the cell at release. Any curve, any slots, any light, any code and any word are
// taken. This crate knows nothing of the kernel but what its codes 0 and 1 mean.
#![tactic(auto)]

ghost use Rattle.std.specs.Prelude.{◌≡◌};
ghost use Rattle.brightness_light.specs.Lights.{is_slot, lux_at, shown, idle, first_shown, taken_of, heard_of, woken_of};
ghost use Rattle.brightness_light.specs.declared.News.TheVariants as News;

use brightness_curve::{BadPoint, Curve, first_level, level_of};

// A code of the kernel: served; the caller waits.
const OK: i32 = 0;

const WAITS: i32 = 1;

// Later slots are ignored.
const MAX_SLOTS: usize = 256;

// The task that waits for a reading, 0 if none does.
#[repr(C)]
#[derive(Clone, Copy)]
pub struct Light {
    pub level: u32,
    pub waits: u32,
}

// What became of an arrival.
#[derive(Clone, Copy)]
pub enum News {
    // the level is the curve's at the reading
    Set,
    // no reading has arrived: the task waits for one
    Waits,
    // the code is not 0: the level stays
    Stays,
    // the message number is 0 or beyond the slots: the level stays
    NoSlot,
    // the curve's first bad point: nothing was done, and the light is given back as it was, so this is no `Err`
    BadCurve(u32),
}

#[derive(Clone, Copy)]
pub struct Shown {
    pub light: Light,
    pub news: News,
}

// ---- slots

// A message number names a slot, counted from 1.
fn is_slot(word: u32, count: usize) -> bool
    ensures { result ≡ is_slot word count }
{
    let k = word as usize;
    1 <= k && k <= MAX_SLOTS && k <= count
}

// The lux of that slot; 0 where there is none.
fn lux_at(slots: &[u32], word: u32) -> u32
    ensures { result ≡ lux_at slots.now word }
{
    let Some(k) = word.checked_sub(1) else {
        return 0;
    };
    slots.get(k as usize).copied().unwrap_or(0)
}

// ---- a light

fn show(light: Light, news: News) -> Shown
    ensures { result ≡ shown light news }
{
    Shown { light, news }
}

// The light with nobody waiting.
fn rested(light: Light) -> Light
    ensures { result ≡ idle light }
{
    Light { waits: 0, ..light }
}

// The light that a display starts with: the first point's level. Of a bad curve there is none, and the light given is dark.
pub fn first_light(curve: Curve) -> Shown
    ensures { result ≡ first_shown curve }
{
    match first_level(curve) {
        Err(BadPoint(point)) => show(Light { level: 0, waits: 0 }, News::BadCurve(point)),
        Ok(level) => show(Light { level, waits: 0 }, News::Set),
    }
}

// What the code and the word of an arrival make of a light: a reading sets the level, and anything else leaves it.
pub fn take(curve: Curve, slots: &[u32], light: Light, code: i32, word: u32) -> Shown
    ensures { result ≡ taken_of curve slots.now light code word }
{
    let lux = lux_at(slots, word);
    let named = is_slot(word, slots.len());
    match level_of(curve, lux) {
        Err(BadPoint(point)) => show(light, News::BadCurve(point)),
        Ok(_) if code != OK => show(light, News::Stays),
        Ok(_) if !named => show(light, News::NoSlot),
        Ok(level) => show(Light { level, ..light }, News::Set),
    }
}

// What rcv_msg answered the task `me` at once.
pub fn heard(curve: Curve, slots: &[u32], light: Light, me: u32, code: i32, word: u32) -> Shown
    ensures { result ≡ heard_of curve slots.now light me code word }
{
    if code == WAITS {
        show(Light { waits: me, ..light }, News::Waits)
    } else if code == OK {
        take(curve, slots, rested(light), code, word)
    } else {
        take(curve, slots, light, code, word)
    }
}

// What the running task `me` finds in its cell: the reading, if it is the one that waits.
#[tactic(auto, unfolding(crate::specs::Lights::woken_of))]
pub fn woken(curve: Curve, slots: &[u32], light: Light, me: u32, code: i32, word: u32) -> Shown
    ensures { result ≡ woken_of curve slots.now light me code word }
{
    if light.waits == me {
        take(curve, slots, rested(light), code, word)
    } else {
        show(light, News::Waits)
    }
}
