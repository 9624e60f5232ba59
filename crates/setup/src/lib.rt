// A whole setup, judged without keeping it: section after section. The contracts cite the rules' own reader (`read_setup`, `setup`), for
// any bytes and any offset.
#![tactic(auto)]

ghost use Rattle.std.specs.Prelude.{◌≡◌, [], ◌∷◌};
ghost use Rattle.rules.specs.Setup.{S4, word_at, to, section, counters, read_entry, read_section};
ghost use Rattle.rules.specs.Setup.{read_with, read_setup, perhaps, setup};
ghost use Rattle.setup_sections.specs.Judging.{onward, coded, judged_of, on_good, ranges_of};
ghost use Rattle.setup.specs.Whole.{left_out, ended_at};

use setup_sections::{
    Fault, FaultName, Refusal, Shape, Span, judge_entries, judge_section, judge_word, onward, word,
};

// The largest counts.
pub const PRIORITIES: u32 = 16;

pub const TASKS: u32 = 32;

pub const SEMAPHORES: u32 = 16;

pub const FLAGS: u32 = 16;

pub const MAILBOXES: u32 = 16;

pub const MESSAGES: u32 = 256;

pub const POOLS: u32 = 8;

pub const COUNTERS: u32 = 1;

// The range of a counter's size, m.
const LEAST_SIZE: u32 = 1;

const MOST_SIZE: u32 = 65535;

// How many alarms a counter has.
const ALARMS: u32 = 8;

// The section behind what was judged before: an earlier fault stays.
fn after(
    bytes: &[u8],
    count: Span,
    e: Shape,
    earlier: Result<usize, Refusal>,
) -> Result<usize, Refusal>
    ensures { result ≡ on_good earlier (λ i. judged_of (read_section bytes.now (section (to count.least count.most) (ranges_of e)) i)) }
{
    earlier.and_then(|at| judge_section(bytes, count, e, at))
}

fn no_words() -> Shape
    ensures { ranges_of result ≡ [] }
{
    let none = Span::new(0, 0);
    Shape {
        words: 0,
        first: none,
        others: none,
    }
}

fn one_word(least: u32, most: u32) -> Shape
    ensures { ranges_of result ≡ to least most ∷ [] }
{
    let first = Span::new(least, most);
    Shape {
        words: 1,
        first,
        others: first,
    }
}

// From 1 to `most`, and 0 or 1: of a task its starting priority and 1 if it is started, of an alarm its task and 1 if it wakes it.
fn two_words(most: u32) -> Shape
    ensures { ranges_of result ≡ to 1 most ∷ to 0 1 ∷ [] }
{
    let first = Span::new(1, most);
    let others = Span::new(0, 1);
    Shape {
        words: 2,
        first,
        others,
    }
}

// The first seven sections. Where the first count is refused, what is read as the number of priorities does not matter.
fn judge_seven(bytes: &[u8], at: usize) -> Result<usize, Refusal>
    ensures { result ≡ judged_of (read_with left_out bytes.now at) }
{
    let priorities = judge_section(bytes, Span::new(1, PRIORITIES), no_words(), at);
    let tasks = after(
        bytes,
        Span::new(1, TASKS),
        two_words(word(bytes, at)),
        priorities,
    );
    let semaphores = after(bytes, Span::new(0, SEMAPHORES), one_word(0, 65535), tasks);
    let flags = after(
        bytes,
        Span::new(0, FLAGS),
        one_word(0, u32::MAX),
        semaphores,
    );
    let mailboxes = after(bytes, Span::new(0, MAILBOXES), no_words(), flags);
    let messages = after(bytes, Span::new(0, MESSAGES), no_words(), mailboxes);
    after(bytes, Span::new(0, POOLS), one_word(1, 32), messages)
}

// A counter's entry, of a setup with so many tasks: m, and its alarms.
fn judge_counter(bytes: &[u8], tasks: u32, at: usize) -> Result<usize, Refusal>
    ensures { result ≡ judged_of (read_entry bytes.now (counters tasks).entry at) }
{
    let m = Span::new(LEAST_SIZE, MOST_SIZE);
    let next = judge_word(bytes, m, Fault::S3, at)?;
    judge_entries(bytes, two_words(tasks), ALARMS, next)
}

// The eighth section.
fn judge_counters(bytes: &[u8], tasks: u32, at: usize) -> Result<usize, Refusal>
    ensures { result ≡ judged_of (read_section bytes.now (counters tasks) at) }
{
    let count = Span::new(0, COUNTERS);
    let next = judge_word(bytes, count, Fault::S2, at)?;
    if word(bytes, at) == 0 {
        return Ok(next);
    }
    judge_counter(bytes, tasks, next)
}

// The number of tasks of a setup that begins at an offset.
fn task_count(bytes: &[u8], at: usize) -> u32
    ensures { result ≡ word_at bytes.now (onward bytes.now at 4) }
{
    word(bytes, onward(bytes, at, 4))
}

// A recorded setup that begins at an offset: all eight sections.
pub fn judge(bytes: &[u8], at: usize) -> Result<usize, Refusal>
    ensures { result ≡ judged_of (read_setup bytes.now at) }
{
    let next = judge_seven(bytes, at)?;
    judge_counters(bytes, task_count(bytes, at), next)
}

// The eighth section may be left out where the bytes end.
fn judge_alone(bytes: &[u8]) -> Result<usize, Refusal>
    ensures { result ≡ judged_of (read_with perhaps bytes.now 0) }
{
    let next = judge_seven(bytes, 0)?;
    if bytes.len() <= next {
        return Ok(next);
    }
    judge_counters(bytes, task_count(bytes, 0), next)
}

// Nothing may follow what was judged, of so many bytes.
pub fn at_end<F: FaultName>(
    length: usize,
    judged: Result<usize, Refusal<F>>,
) -> Result<usize, Refusal<F>>
    ensures { result ≡ on_good judged (ended_at (F.name (coded S4)) length) }
{
    let end = judged?;
    if end < length {
        return Err(Refusal {
            fault: F::name(Fault::S4),
            place: end,
        });
    }
    Ok(end)
}

// A setup alone: nothing may follow.
pub fn judge_whole(bytes: &[u8]) -> Result<usize, Refusal>
    ensures { result ≡ judged_of (setup bytes.now) }
{
    at_end(bytes.len(), judge_alone(bytes))
}
