// A recorder's own memory, five numbers and the bytes held: what each byte of a recorded run completes, and what its
// end does. Any numbers and bytes are a recorder (`recorder_of`). Setup and count are judged anew after each byte, by
// the reader of whole ones; an event's bytes are held until it is whole.
#![tactic(auto)]

ghost use Rattle.std.specs.Prelude.{[], ◌∷◌, ◌++◌, ◌≡◌, ◌+◌, ◌-◌, ◌≤◌, ◌<◌, min, length, take};
ghost use Rattle.run_reading.specs.Recorder.{ended, begun, closed, is_ended, at_input_end};
ghost use Rattle.run_stream.specs.Lent.{phase, size, place_of, numbers_of, recorder_of, Is, Tests, Tells, Takes};

use run_reading::{EVENT, HEAD, judge_head};
use setup_sections::{Fault, Refusal, word};

// The numbers: phase, bytes held, events in all, events done, place of the first event.
pub const NUMBERS: usize = 5;

const PHASE: usize = 0;

const SIZE: usize = 1;

const TOTAL: usize = 2;

const DONE: usize = 3;

const BASE: usize = 4;

// The phases; any greater number is ended, too. Numbers and no enum: the caller lends them, and they may hold anything.
const HEADING: u32 = 0;

const RUNNING: u32 = 1;

const STOPPED: u32 = 2;

const ENDED: u32 = 3;

// The bytes of a word, and so of the count of events.
const WORD: usize = 4;

// What a byte, or the end, completes, where it is not refused: the setup and the count, with the setup's length; an event by its number.
#[derive(Clone, Copy)]
pub enum Item {
    Nothing,
    Begins(usize),
    Occurs(u32),
}

// ---- the numbers

fn write(numbers: &mut [u32; NUMBERS], phase: u32, size: u32, total: u32, done: u32, base: u32)
    ensures { numbers.new ≡ numbers_of phase size total done base }
{
    *numbers = [phase, size, total, done, base];
}

// How many bytes are held, fewer than `most`.
fn held_count(numbers: &[u32; NUMBERS], most: usize) -> usize
    requires { 1 ≤ most }
    ensures { (result ≡ min (size numbers.now) (most - 1)) × (result < most) }
{
    (numbers[SIZE] as usize).min(most - 1)
}

// The place of the next event.
fn place_of_next(numbers: &[u32; NUMBERS]) -> usize
    ensures { (result ≡ place_of numbers.now) × (result ≤ 100000000000) }
{
    numbers[BASE] as usize + EVENT * numbers[DONE] as usize
}

// Is nothing more taken?
#[tactic(auto, using(crate::proofs::Taking::closed_tests))]
pub fn is_closed(numbers: &[u32; NUMBERS]) -> bool
    ensures { Tests closed numbers.now result }
{
    STOPPED <= numbers[PHASE]
}

// Has the end come?
#[tactic(auto, using(crate::proofs::Taking::ended_tests))]
pub fn is_ended(numbers: &[u32; NUMBERS]) -> bool
    ensures { Tests is_ended numbers.now result }
{
    ENDED <= numbers[PHASE]
}

// A recorder that has taken nothing, whatever bytes are held.
#[tactic(auto, using(crate::proofs::Taking::begun_is))]
pub fn begin(numbers: &mut [u32; NUMBERS])
    ensures { Is numbers.new begun }
{
    write(numbers, HEADING, 0, 0, 0, 0);
}

// The end has come.
#[tactic(auto, using(crate::proofs::Taking::ended_is))]
pub fn close(numbers: &mut [u32; NUMBERS])
    ensures { Is numbers.new ended }
{
    write(numbers, ENDED, 0, 0, 0, 0);
}

// ---- a byte

// One byte more is held.
#[tactic(auto, using(crate::proofs::Taking::take_set))]
fn hold(held: &mut [u8], n: usize, b: u8)
    requires { n < length held.old }
    ensures { take (n + 1) held.new ≡ take n held.old ++ (b ∷ []) }
{
    held[n] = b;
}

// A byte of the setup or of the count.
fn head_byte(numbers: &mut [u32; NUMBERS], held: &mut [u8; HEAD], b: u8) -> Result<Item, Refusal>
    requires { phase numbers.old ≡ 0 }
    ensures { Takes b numbers.old held.old result numbers.new held.new }
{
    let n = held_count(numbers, HEAD);
    hold(held, n, b);
    let front = &held[..n + 1];
    match judge_head(front) {
        Ok(i) => {
            let events = word(front, i - WORD);
            write(numbers, RUNNING, 0, events, 0, i as u32);
            Ok(Item::Begins(i - WORD))
        }
        Err(r) if r.fault == Fault::S1 => {
            write(numbers, HEADING, n as u32 + 1, 0, 0, 0);
            Ok(Item::Nothing)
        }
        Err(r) => {
            write(numbers, STOPPED, 0, 0, 0, 0);
            Err(r)
        }
    }
}

// A byte of an event, or behind the last one.
fn event_byte(numbers: &mut [u32; NUMBERS], held: &mut [u8; HEAD], b: u8) -> Result<Item, Refusal>
    requires { phase numbers.old ≡ 1 }
    ensures { Takes b numbers.old held.old result numbers.new held.new }
{
    let total = numbers[TOTAL];
    let done = numbers[DONE];
    let base = numbers[BASE];
    if total <= done {
        let place = place_of_next(numbers);
        write(numbers, STOPPED, 0, 0, 0, 0);
        return Err(Refusal {
            fault: Fault::S4,
            place,
        });
    }
    let n = held_count(numbers, EVENT);
    hold(held, n, b);
    if n + 1 < EVENT {
        write(numbers, RUNNING, n as u32 + 1, total, done, base);
        return Ok(Item::Nothing);
    }
    let number = done + 1;
    write(numbers, RUNNING, 0, total, number, base);
    Ok(Item::Occurs(number))
}

// The next byte.
pub fn take_byte(
    numbers: &mut [u32; NUMBERS],
    held: &mut [u8; HEAD],
    b: u8,
) -> Result<Item, Refusal>
    ensures { Takes b numbers.old held.old result numbers.new held.new }
{
    let phase = numbers[PHASE];
    match phase {
        HEADING => head_byte(numbers, held, b),
        RUNNING => event_byte(numbers, held, b),
        _ => Ok(Item::Nothing),
    }
}

// ---- the end

// In the setup or the count.
fn head_end(numbers: &[u32; NUMBERS], held: &[u8; HEAD]) -> Result<Item, Refusal>
    requires { phase numbers.now ≡ 0 }
    ensures { Tells result held.now (at_input_end (recorder_of numbers.now held.now)) }
{
    let n = held_count(numbers, HEAD);
    judge_head(&held[..n])?;
    Ok(Item::Nothing)
}

// In an event, or behind the last one.
fn event_end(numbers: &[u32; NUMBERS], held: &[u8; HEAD]) -> Result<Item, Refusal>
    requires { phase numbers.now ≡ 1 }
    ensures { Tells result held.now (at_input_end (recorder_of numbers.now held.now)) }
{
    if numbers[TOTAL] <= numbers[DONE] {
        return Ok(Item::Nothing);
    }
    let n = held_count(numbers, EVENT);
    Err(Refusal {
        fault: Fault::S1,
        place: place_of_next(numbers) + WORD * (n / WORD),
    })
}

// What the end of the input completes: S1, where more was to come.
pub fn at_end(numbers: &[u32; NUMBERS], held: &[u8; HEAD]) -> Result<Item, Refusal>
    ensures { Tells result held.now (at_input_end (recorder_of numbers.now held.now)) }
{
    let phase = numbers[PHASE];
    match phase {
        HEADING => head_end(numbers, held),
        RUNNING => event_end(numbers, held),
        _ => Ok(Item::Nothing),
    }
}
