// The public functions under plain names, for programs in C and Rust: include/okrozumba.h declares them. Each promises what the
// function that it wraps promises; an answer that is an enum there is told by its number and place here (specs/, and `export_numbers`).
#![tactic(auto)]

pub mod compare;

ghost use Rattle.std.specs.Prelude.{◌≡◌, ◌≤◌};
ghost use Rattle.rules.specs.Events as Events;
ghost use Rattle.memory_picture.specs.Picture.{memory};
ghost use Rattle.kernel_steps.specs.Steps.{reply_of, Step};
ghost use Rattle.kernel_cells.specs.Promises.{Reads, Runs, Lists};
ghost use Rattle.kernel_batches.specs.Batches.{lent};
ghost use Rattle.brightness_curve.specs.Curves.{judged_of, level_of};
ghost use Rattle.brightness_light.specs.Lights.{first_shown, taken_of};
ghost use Rattle.brightness.specs.Readings.{Receives, Resumes};
ghost use Rattle.export_numbers.specs.Brightness.{judged_number, judged_point, leveled_number, leveled_value, DisplayTold};
ghost use Rattle.okrozumba.specs.Brightness.{Displayed};
ghost use Rattle.run_reading.specs.Recorder.{begun};
ghost use Rattle.run_stream.specs.Lent.{Is};
ghost use Rattle.run_recorder.specs.Recording as Recording;
ghost use Rattle.run_recorder.specs.Recording.{Parts, Ends};
ghost use Rattle.run_month.specs.Monthly.{Reported};
ghost use Rattle.run_tally.specs.Tables.{Flat};
ghost use Rattle.run_figures.specs.Figures.{figures};
ghost use Rattle.run_figures.specs.Counting as Counting;
ghost use Rattle.run_figures.specs.Counting.{Counts};
ghost use Rattle.okrozumba.specs.Exports.{ran_number, ran_place, StartsTold, BatchedTold, RunsTold};

use brightness_curve::Curve;
use brightness_light::Light;
use export_numbers::{
    Display, Judgement, Level, Outcome, batch_number, judged_told, leveled_told, report_number,
    shown_told, start_outcome,
};
use kernel_batches::RunError;
use kernel_cells::{Reading, TASK_PLACES};
use kernel_steps::Answer;
use memory_columns::STATE_WORDS;
use run_figures::Counted;
use run_month::Record;
use run_reading::HEAD;
use run_recorder::Parted;
use run_stream::NUMBERS;
use run_tally::{CODES, STATES, TASKS};

// ---- a fresh state

// The fresh state of a setup: 0, or the digit of its fault with the place, and the memory as it was.
#[unsafe(no_mangle)]
pub extern "C" fn okrozumba_start(
    setup: &[u8],
    words: &mut [u32; STATE_WORDS],
    messages: &mut [u32; 256],
) -> Outcome
    ensures { StartsTold setup.now result.number result.place (memory words.old messages.old)
        (memory words.new messages.new) }
{
    start_outcome(kernel_start::start(setup, words, messages))
}

// ---- one event

// A call from a context (0 task, 1 handler) by its number.
#[unsafe(no_mangle)]
pub extern "C" fn okrozumba_call(
    words: &mut [u32; STATE_WORDS],
    messages: &mut [u32; 256],
    context: i32,
    number: i32,
    a: i32,
    b: i32,
    c: i32,
) -> Answer
    ensures { Step (Events.call context number a b c) (memory words.old messages.old)
        (reply_of result) (memory words.new messages.new) }
{
    kernel_events::call(words, messages, context, number, a, b, c)
}

// A tick.
#[unsafe(no_mangle)]
pub extern "C" fn okrozumba_tick(words: &mut [u32; STATE_WORDS], messages: &[u32; 256]) -> Answer
    ensures { Step Events.tick (memory words.old messages.now)
        (reply_of result) (memory words.new messages.now) }
{
    kernel_events::tick(words, messages)
}

// The entry of a handler.
#[unsafe(no_mangle)]
pub extern "C" fn okrozumba_enter(words: &mut [u32; STATE_WORDS], messages: &[u32; 256]) -> Answer
    ensures { Step Events.enter (memory words.old messages.now)
        (reply_of result) (memory words.new messages.now) }
{
    kernel_events::enter(words, messages)
}

// The return of a handler.
#[unsafe(no_mangle)]
pub extern "C" fn okrozumba_leave(words: &mut [u32; STATE_WORDS], messages: &[u32; 256]) -> Answer
    ensures { Step Events.exit (memory words.old messages.now)
        (reply_of result) (memory words.new messages.now) }
{
    kernel_events::leave(words, messages)
}

// ---- reading

// The cell of a task: on a damaged state the code of the first rule broken, then E_NOEXS for a bad id, each with word 0.
#[unsafe(no_mangle)]
pub extern "C" fn okrozumba_cell(
    words: &[u32; STATE_WORDS],
    messages: &[u32; 256],
    task: i32,
) -> Reading
    ensures { Reads (memory words.now messages.now) task result.code result.word }
{
    kernel_cells::cell(words, messages, task)
}

// The running task, 0 if there is none or the state is damaged.
#[unsafe(no_mangle)]
pub extern "C" fn okrozumba_running(words: &[u32; STATE_WORDS], messages: &[u32; 256]) -> u32
    ensures { Runs (memory words.now messages.now) result }
{
    kernel_cells::running(words, messages)
}

// The state of each task, as tsk_sts shows it, 6 for a task that is not there. On a damaged state: the code of the first rule broken, no
// task, and the places as they were.
#[unsafe(no_mangle)]
pub extern "C" fn okrozumba_states(
    words: &[u32; STATE_WORDS],
    messages: &[u32; 256],
    states: &mut [u32; TASK_PLACES],
) -> kernel_cells::Shown
    ensures { Lists (memory words.now messages.now) result.code result.tasks
        states.old states.new }
{
    kernel_cells::states(words, messages, states)
}

// ---- many events

// The events, five words each: 0, or the number of why none was served, and everything as it was.
#[unsafe(no_mangle)]
pub extern "C" fn okrozumba_events(
    words: &mut [u32; STATE_WORDS],
    messages: &mut [u32; 256],
    events: &[i32],
    codes: &mut [i32],
    answers: &mut [u32],
) -> u32
    ensures { BatchedTold events.now result
        (lent (memory words.old messages.old) codes.old answers.old)
        (lent (memory words.new messages.new) codes.new answers.new) }
{
    batch_number(kernel_batches::events(words, messages, events, codes, answers))
}

fn run_outcome(ran: Result<(), RunError>) -> Outcome
    ensures { (result.number ≡ ran_number ran) × (result.place ≡ ran_place ran) }
{
    match ran {
        Ok(()) => Outcome {
            number: 0,
            place: 0,
        },
        Err(RunError::Unfit(unfit)) => Outcome {
            number: batch_number(Err(unfit)),
            place: 0,
        },
        Err(RunError::Refused(refusal)) => Outcome {
            number: 10 + u32::from(refusal.fault),
            place: refusal.place,
        },
    }
}

// A fresh kernel, then the events: the same numbers, then 10 more than the digit of the setup's fault, with the place.
#[unsafe(no_mangle)]
pub extern "C" fn okrozumba_run(
    setup: &[u8],
    words: &mut [u32; STATE_WORDS],
    messages: &mut [u32; 256],
    events: &[i32],
    codes: &mut [i32],
    answers: &mut [u32],
) -> Outcome
    ensures { RunsTold setup.now events.now result.number result.place
        (lent (memory words.old messages.old) codes.old answers.old)
        (lent (memory words.new messages.new) codes.new answers.new) }
{
    run_outcome(kernel_batches::run(setup, words, messages, events, codes, answers))
}

// ---- recorded runs, as they come

// A recorder that has taken nothing.
#[unsafe(no_mangle)]
pub extern "C" fn okrozumba_begin(numbers: &mut [u32; NUMBERS])
    ensures { Is numbers.new begun }
{
    run_stream::begin(numbers)
}

// The next part of the input.
#[unsafe(no_mangle)]
pub extern "C" fn okrozumba_part(
    numbers: &mut [u32; NUMBERS],
    held: &mut [u8; HEAD],
    words: &mut [u32; STATE_WORDS],
    messages: &mut [u32; 256],
    bytes: &[u8],
    text: &mut [u8],
) -> Parted
    ensures { Parts bytes.now
        (Recording.lent numbers.old held.old (memory words.old messages.old))
        (Recording.lent numbers.new held.new (memory words.new messages.new))
        text.old text.new result }
{
    run_recorder::part(numbers, held, words, messages, bytes, text)
}

// The end of the input.
#[unsafe(no_mangle)]
pub extern "C" fn okrozumba_end(
    numbers: &mut [u32; NUMBERS],
    held: &[u8; HEAD],
    text: &mut [u8],
) -> Parted
    ensures { Ends numbers.old held.now numbers.new text.old text.new result }
{
    run_recorder::end(numbers, held, text)
}

// ---- figures of recorded runs

// The next part of a run, counted: after how many events each task was in each state, and how often each code came back.
#[unsafe(no_mangle)]
pub extern "C" fn okrozumba_count(
    numbers: &mut [u32; NUMBERS],
    held: &mut [u8; HEAD],
    words: &mut [u32; STATE_WORDS],
    messages: &mut [u32; 256],
    table: &mut [[u32; STATES]; TASKS],
    codes: &mut [u32; CODES],
    bytes: &[u8],
) -> Counted
    ensures { Counts bytes.now (Counting.lent numbers.old held.old
        (memory words.old messages.old) (figures table.old codes.old))
        (Counting.lent numbers.new held.new (memory words.new messages.new)
        (figures table.new codes.new)) result }
{
    run_figures::count(numbers, held, words, messages, table, codes, bytes)
}

// The record of a run, from what was counted of it.
#[unsafe(no_mangle)]
pub extern "C" fn okrozumba_record_of(
    table: &[[u32; STATES]; TASKS],
    codes: &[u32; CODES],
) -> Record
    ensures { Flat table.now codes.now result.counts }
{
    run_tally::flat(*table, *codes)
}

// The totals of the records: 0, or the digit of T1 to T3, and the output as it was.
#[unsafe(no_mangle)]
pub extern "C" fn okrozumba_month(records: &[Record], out: &mut [u32]) -> u32
    ensures { Reported records.now result out.old out.new }
{
    report_number(run_month::month(records, out))
}

// ---- brightness

// Judges a curve.
#[unsafe(no_mangle)]
pub extern "C" fn okrozumba_curve_judge(curve: Curve) -> Judgement
    ensures { (result.number ≡ judged_number (judged_of curve)) × (result.point ≡ judged_point (judged_of curve)) }
{
    judged_told(brightness_curve::judge(curve))
}

// The level of a curve at a lux.
#[unsafe(no_mangle)]
pub extern "C" fn okrozumba_curve_level(curve: Curve, lux: u32) -> Level
    ensures { (result.number ≡ leveled_number (level_of curve lux)) × (result.value ≡ leveled_value (level_of curve lux)) }
{
    leveled_told(brightness_curve::level_of(curve, lux))
}

// The light that a display starts with.
#[unsafe(no_mangle)]
pub extern "C" fn okrozumba_light_first(curve: Curve) -> Display
    ensures { DisplayTold (first_shown curve) result }
{
    shown_told(brightness_light::first_light(curve))
}

// What the code and the word of an arrival make of a light.
#[unsafe(no_mangle)]
pub extern "C" fn okrozumba_light_take(
    curve: Curve,
    slots: &[u32],
    light: Light,
    code: i32,
    word: u32,
) -> Display
    ensures { DisplayTold (taken_of curve slots.now light code word) result }
{
    shown_told(brightness_light::take(curve, slots, light, code, word))
}

// The running task asks a mailbox for a reading.
#[unsafe(no_mangle)]
pub extern "C" fn okrozumba_light_receive(
    words: &mut [u32; STATE_WORDS],
    messages: &mut [u32; 256],
    curve: Curve,
    slots: &[u32],
    light: Light,
    mailbox: i32,
) -> Display
    ensures { Displayed (λ s. Receives curve slots.now light mailbox
        (memory words.old messages.old) s (memory words.new messages.new)) result }
{
    shown_told(brightness::receive(words, messages, curve, slots, light, mailbox))
}

// Once the task that waits for a reading runs again, it is taken from the task's cell.
#[unsafe(no_mangle)]
pub extern "C" fn okrozumba_light_resumed(
    words: &[u32; STATE_WORDS],
    messages: &[u32; 256],
    curve: Curve,
    slots: &[u32],
    light: Light,
) -> Display
    ensures { Displayed
        (λ s. Resumes curve slots.now light (memory words.now messages.now) s) result }
{
    shown_told(brightness::resumed(words, messages, curve, slots, light))
}
