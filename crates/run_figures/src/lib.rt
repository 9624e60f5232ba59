// The figures of a recorded run, counted as it is taken in parts of any size: after how many events each task was in
// each state, and how often each code came back. All of it lies in memory that the caller lends, and any content of
// that memory is a value. The kernel's memory is checked once in a part.
#![tactic(auto)]

ghost use Rattle.std.specs.Prelude.{cond, ◌&&◌, List, ◌≡◌, ℕ, suc, ◌≤◌, ◌<◌, min, leb, length, get_or, Result, Ok};
ghost use Rattle.memory_picture.specs.Picture.{tasks_shown, memory};
ghost use Rattle.call_reading.specs.Reading.{number_at};
ghost use Rattle.check_damage.specs.declared.Breach.{Breach};
ghost use Rattle.run_reading.specs.Recorder.{closed};
ghost use Rattle.run_stream.specs.declared.Item.TheVariants.{Begins, Occurs};
ghost use Rattle.run_stream.specs.Lent.{recorder_of, Sized};
ghost use Rattle.run_figures.specs.Figures.{Figures, figures, counted};
ghost use Rattle.run_figures.specs.Counting.{seen_in, lent, CountsTold, Counts};

use call_reading::state_number;
use check_damage::Breach;
use kernel_steps::look;
use memory_columns::{Column, MESSAGE_WORDS, STATE_WORDS};
use run_reading::HEAD;
use run_serving::serve_held;
use run_stream::{Item, NUMBERS, is_closed, take_byte};
use run_tally::{CODES, STATES, TASKS, codes_counted, table_counted};

// What a part says. Its number: 0, or 1 to 4 for the run's refusal S1 to S4, with its place; 5 (S5) for a nonempty part
// behind the end or a refusal. The C interface hands it out as it is, so it has numbers.
#[repr(C)]
#[derive(Clone, Copy)]
pub struct Counted {
    pub number: u32,
    pub place: usize,
}

const S5: u32 = 5;

// ---- what an event adds

// How many tasks there are, at most the table's rows.
fn tasks(words: &[u32; STATE_WORDS]) -> usize
    ensures { (result ≡ min (tasks_shown words.now) 32) × (result ≤ 32) }
{
    (Column::System.get(words, memory_columns::TASKS) as usize).min(TASKS)
}

// The state of each of the first n tasks.
fn states(words: &[u32; STATE_WORDS], n: usize) -> [u32; TASKS]
    requires { n ≤ 32 }
    ensures { (i : ℕ) → i < n → get_or result i 0 ≡ number_at words.now (suc i) }
{
    let mut s = [0u32; TASKS];
    for i in 0..n {
        s[i] = state_number(words, i as u32 + 1);
    }
    s
}

// An event has left these words and given this code.
fn count_event(
    words: &[u32; STATE_WORDS],
    code: i32,
    table: &mut [[u32; STATES]; TASKS],
    codes: &mut [u32; CODES],
)
    ensures { figures table.new codes.new ≡ counted
        (figures table.old codes.old) (seen_in code words.now) }
{
    let n = tasks(words);
    let s = states(words, n);
    let t = *table;
    *table = table_counted(t, &s, n);
    let c = *codes;
    *codes = codes_counted(c, code);
}

// ---- items

// The setup is whole: a fresh kernel.
fn begins(
    held: &[u8; HEAD],
    end: usize,
    words: &mut [u32; STATE_WORDS],
    messages: &mut [u32; MESSAGE_WORDS],
) -> Result<u32, Breach>
    requires { end ≤ length held.now }
    ensures { (k : Result ℕ Breach) (f : Figures) → CountsTold (Begins end) held.now k
        (memory words.old messages.old) (memory words.new messages.new) f f result }
{
    let all = &held[..];
    // Its setup was judged: it is not refused.
    let _ = kernel_start::start(&all[..end], words, messages);
    look(words, messages)
}

// An event is whole: it runs and is counted.
fn occurs(
    held: &[u8; HEAD],
    words: &mut [u32; STATE_WORDS],
    messages: &mut [u32; MESSAGE_WORDS],
    known: Result<u32, Breach>,
    table: &mut [[u32; STATES]; TASKS],
    codes: &mut [u32; CODES],
) -> Result<u32, Breach>
    ensures { (i : ℕ) → CountsTold (Occurs i) held.now known
        (memory words.old messages.old) (memory words.new messages.new)
        (figures table.old codes.old) (figures table.new codes.new) result }
{
    let r = serve_held(held, words, messages, known);
    count_event(words, r.code, table, codes);
    known.and(Ok(r.running))
}

// What a byte completed is done; what is known of the memory then.
fn count_item(
    item: Item,
    held: &[u8; HEAD],
    words: &mut [u32; STATE_WORDS],
    messages: &mut [u32; MESSAGE_WORDS],
    known: Result<u32, Breach>,
    table: &mut [[u32; STATES]; TASKS],
    codes: &mut [u32; CODES],
) -> Result<u32, Breach>
    requires { Sized (Ok item) held.now }
    ensures { CountsTold item held.now known (memory words.old messages.old)
        (memory words.new messages.new) (figures table.old codes.old)
        (figures table.new codes.new) result }
{
    match item {
        Item::Nothing => known,
        Item::Begins(end) => begins(held, end, words, messages),
        Item::Occurs(_) => occurs(held, words, messages, known, table, codes),
    }
}

// ---- a part

// What is said before the first byte: S5 of bytes that are not taken any more.
fn first_number(numbers: &[u32; NUMBERS], size: usize) -> u32
    ensures { (h : List ℕ) → result ≡ cond (closed (recorder_of numbers.now h) && leb 1 size) 5 0 }
{
    if is_closed(numbers) && 0 < size {
        S5
    } else {
        0
    }
}

// The next part of a run. All of it is taken.
pub fn count(
    numbers: &mut [u32; NUMBERS],
    held: &mut [u8; HEAD],
    words: &mut [u32; STATE_WORDS],
    messages: &mut [u32; MESSAGE_WORDS],
    table: &mut [[u32; STATES]; TASKS],
    codes: &mut [u32; CODES],
    bytes: &[u8],
) -> Counted
    ensures { Counts bytes.now (lent numbers.old held.old
        (memory words.old messages.old) (figures table.old codes.old))
        (lent numbers.new held.new (memory words.new messages.new)
        (figures table.new codes.new)) result }
{
    let mut known = look(words, messages);
    let mut said = Counted {
        number: first_number(numbers, bytes.len()),
        place: 0,
    };
    for b in bytes {
        match take_byte(numbers, held, *b) {
            Ok(item) => {
                known = count_item(item, held, words, messages, known, table, codes);
            }
            Err(refusal) => {
                said = Counted {
                    number: u32::from(refusal.fault),
                    place: refusal.place,
                };
            }
        }
    }
    said
}
