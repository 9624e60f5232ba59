// A recorded run that is taken as it comes, in parts of any size: `begin`, `part`, `end`. All of it lies in memory that
// the caller lends, and any content of that memory is a value. Each whole event runs at once and writes its line. The
// kernel's memory is checked once in a part.
#![tactic(auto)]

ghost use Rattle.std.specs.Prelude.{◌≤◌, length, ℕ, Ok, Result};
ghost use Rattle.memory_picture.specs.Picture.{memory};
ghost use Rattle.run_stream.specs.declared.Item.TheVariants.{Begins, Occurs};
ghost use Rattle.check_damage.specs.declared.Breach.{Breach};
ghost use Rattle.run_stream.specs.Lent.{Sized};
ghost use Rattle.run_recorder.specs.Recording.{lent, Parts, Ends, PlaysTold, Eats, PartsOpen, EndsRefused, EndsQuiet};

use check_damage::Breach;
use kernel_steps::look;
use memory_columns::{MESSAGE_WORDS, STATE_WORDS};
use memory_running::running_task;
use run_reading::HEAD;
use run_serving::serve_held;
use run_stream::{Item, NUMBERS, at_end, close, is_closed, is_ended, take_byte};
use run_text::{LINE, event_line, refusal_line, start_line};
use setup_sections::Refusal;

// What a part or an end says. Its number: 0 all is taken, or it is the end; 1 to 4 the run's refusal S1 to S4, with its
// place; 5 (S5) a part or an end that is not taken any more; 6 there is no room for the next line. Then how many bytes
// of the part were taken, and how many of text were written. The C interface hands it out as it is, so it has numbers.
#[repr(C)]
#[derive(Clone, Copy)]
pub struct Parted {
    pub number: u32,
    pub place: usize,
    pub taken: usize,
    pub written: usize,
}

const TAKEN: u32 = 0;

const S5: u32 = 5;

const FULL: u32 = 6;

// of a part that S5 refuses
const NONE_TAKEN: usize = 0;

// What came of a byte: what is known of the memory now, how much was written, and the run's refusal, if it was that.
#[derive(Clone, Copy)]
struct Turn {
    known: Result<u32, Breach>,
    written: usize,
    refusal: Option<Refusal>,
}

// ---- items

// The setup is whole: a fresh kernel, and the line of the task that runs first.
fn begins(
    held: &[u8; HEAD],
    end: usize,
    words: &mut [u32; STATE_WORDS],
    messages: &mut [u32; MESSAGE_WORDS],
    text: &mut [u8],
) -> Turn
    requires { end ≤ length held.now }
    ensures { (k : Result ℕ Breach) → PlaysTold (Begins end) held.now k
        (memory words.old messages.old) (memory words.new messages.new)
        text.old text.new result }
{
    let all = &held[..];
    // Its setup was judged: it is not refused.
    let _ = kernel_start::start(&all[..end], words, messages);
    let fresh = look(words, messages);
    let written = start_line(text, running_task(words));
    Turn {
        known: fresh,
        written,
        refusal: None,
    }
}

// An event is whole: it runs, and its answer is written behind its number.
fn occurs(
    held: &[u8; HEAD],
    i: u32,
    words: &mut [u32; STATE_WORDS],
    messages: &mut [u32; MESSAGE_WORDS],
    known: Result<u32, Breach>,
    text: &mut [u8],
) -> Turn
    ensures { PlaysTold (Occurs i) held.now known
        (memory words.old messages.old) (memory words.new messages.new)
        text.old text.new result }
{
    let r = serve_held(held, words, messages, known);
    let written = event_line(text, i, r.code, r.w1, r.w2, r.running, r.released);
    Turn {
        known: known.and(Ok(r.running)),
        written,
        refusal: None,
    }
}

// What a byte completed is done.
fn play_item(
    item: Item,
    held: &[u8; HEAD],
    words: &mut [u32; STATE_WORDS],
    messages: &mut [u32; MESSAGE_WORDS],
    known: Result<u32, Breach>,
    text: &mut [u8],
) -> Turn
    requires { Sized (Ok item) held.now }
    ensures { PlaysTold item held.now known (memory words.old messages.old)
        (memory words.new messages.new) text.old text.new result }
{
    match item {
        Item::Nothing => Turn {
            known,
            written: 0,
            refusal: None,
        },
        Item::Begins(end) => begins(held, end, words, messages, text),
        Item::Occurs(i) => occurs(held, i, words, messages, known, text),
    }
}

// ---- a part

// One byte: what it completes is done. It is known of the memory who runs, or what is broken.
fn step(
    numbers: &mut [u32; NUMBERS],
    held: &mut [u8; HEAD],
    words: &mut [u32; STATE_WORDS],
    messages: &mut [u32; MESSAGE_WORDS],
    known: Result<u32, Breach>,
    b: u8,
    text: &mut [u8],
) -> Turn
    ensures { Eats b known
        (lent numbers.old held.old (memory words.old messages.old))
        (lent numbers.new held.new (memory words.new messages.new)) text.old
        text.new result }
{
    match take_byte(numbers, held, b) {
        Ok(item) => play_item(item, held, words, messages, known, text),
        Err(refusal) => {
            let written = refusal_line(text, u32::from(refusal.fault), refusal.place);
            Turn {
                known,
                written,
                refusal: Some(refusal),
            }
        }
    }
}

// The bytes of a part one after the other, as long as there is room for a line, up to a refusal.
fn take_part(
    numbers: &mut [u32; NUMBERS],
    held: &mut [u8; HEAD],
    words: &mut [u32; STATE_WORDS],
    messages: &mut [u32; MESSAGE_WORDS],
    bytes: &[u8],
    text: &mut [u8],
) -> Parted
    ensures { PartsOpen bytes.now
        (lent numbers.old held.old (memory words.old messages.old))
        (lent numbers.new held.new (memory words.new messages.new)) text.old
        text.new result }
{
    let mut known = look(words, messages);
    let mut at: usize = 0;
    for (i, b) in bytes.iter().enumerate() {
        if text.len() - at < LINE {
            return Parted {
                number: FULL,
                place: 0,
                taken: i,
                written: at,
            };
        }
        let t = step(numbers, held, words, messages, known, *b, &mut text[at..]);
        at += t.written;
        if let Some(refusal) = t.refusal {
            return Parted {
                number: u32::from(refusal.fault),
                place: refusal.place,
                taken: i + 1,
                written: at,
            };
        }
        known = t.known;
    }
    Parted {
        number: TAKEN,
        place: 0,
        taken: bytes.len(),
        written: at,
    }
}

// Takes the next bytes of the input, and writes the lines that they complete to the front of the output. A part ends
// before a byte where fewer than `LINE` bytes of the output are left: the rest is the next part.
pub fn part(
    numbers: &mut [u32; NUMBERS],
    held: &mut [u8; HEAD],
    words: &mut [u32; STATE_WORDS],
    messages: &mut [u32; MESSAGE_WORDS],
    bytes: &[u8],
    text: &mut [u8],
) -> Parted
    ensures { Parts bytes.now
        (lent numbers.old held.old (memory words.old messages.old))
        (lent numbers.new held.new (memory words.new messages.new)) text.old
        text.new result }
{
    if bytes.len() == 0 {
        return Parted {
            number: TAKEN,
            place: 0,
            taken: 0,
            written: 0,
        };
    }
    if is_closed(numbers) {
        return Parted {
            number: S5,
            place: 0,
            taken: NONE_TAKEN,
            written: 0,
        };
    }
    take_part(numbers, held, words, messages, bytes, text)
}

// ---- the end

// The line of a refusal at the end, where there is room for it.
fn end_refused(numbers: &mut [u32; NUMBERS], text: &mut [u8], fault: u32, place: usize) -> Parted
    ensures { EndsRefused fault place numbers.old numbers.new text.old text.new result }
{
    let mut nowhere = [0u8; 1];
    let n = refusal_line(&mut nowhere, fault, place);
    if text.len() < n {
        return Parted {
            number: FULL,
            place: 0,
            taken: 0,
            written: 0,
        };
    }
    refusal_line(text, fault, place);
    close(numbers);
    Parted {
        number: fault,
        place,
        taken: 0,
        written: n,
    }
}

// Nothing is left to say.
fn end_quiet(numbers: &mut [u32; NUMBERS]) -> Parted
    ensures { EndsQuiet numbers.new result }
{
    close(numbers);
    Parted {
        number: TAKEN,
        place: 0,
        taken: 0,
        written: 0,
    }
}

// The end of the input. It completes nothing but a refusal.
pub fn end(numbers: &mut [u32; NUMBERS], held: &[u8; HEAD], text: &mut [u8]) -> Parted
    ensures { Ends numbers.old held.now numbers.new text.old text.new result }
{
    if is_ended(numbers) {
        return Parted {
            number: S5,
            place: 0,
            taken: 0,
            written: 0,
        };
    }
    match at_end(numbers, held) {
        Err(refusal) => end_refused(numbers, text, u32::from(refusal.fault), refusal.place),
        Ok(_) => end_quiet(numbers),
    }
}
