// The acts by which a wait begins, is held up and ends. Each is an act of the rules (specs/Acts.antt of `rules`), done on the
// memory.
#![tactic(auto)]

ghost use Rattle.std.specs.Prelude.{◌≡◌};
ghost use Rattle.memory_waits.specs.Waits.{ended, halted, resumed, released, awaiting, slept, waited};

use memory_columns::{Column, READY, STATE_WORDS, SUSPEND, WAIT, WAIT_SUSPEND};
use memory_queues::{leave, push, wait_anchor};
use memory_tasks::{make_ready, write_cell};

// The wait of task t is over: its cell is written, and no tick is left of it, so that a tick has nothing to count down.
fn end_wait(words: &mut [u32; STATE_WORDS], t: u32, code: u32, word: u32)
    ensures { words.new ≡ ended t code word words.old }
{
    write_cell(words, t, code, word);
    Column::Ticks.set(words, t, 0);
}

// Task t is suspended: a ready one leaves its queue, a waiting one keeps its place.
pub fn suspend(words: &mut [u32; STATE_WORDS], t: u32)
    ensures { words.new ≡ halted t words.old }
{
    match Column::Status.get(words, t) {
        READY => {
            Column::Status.set(words, t, SUSPEND);
            leave(words, t);
        }
        WAIT => Column::Status.set(words, t, WAIT_SUSPEND),
        _ => {}
    }
}

// Task t is resumed: SUSPEND is made ready, WAIT-SUSPEND becomes WAIT.
pub fn resume(words: &mut [u32; STATE_WORDS], t: u32)
    ensures { words.new ≡ resumed t words.old }
{
    match Column::Status.get(words, t) {
        SUSPEND => make_ready(words, t),
        WAIT_SUSPEND => Column::Status.set(words, t, WAIT),
        _ => {}
    }
}

// The wait of task t ends: the cell is written, WAIT is made ready, WAIT-SUSPEND becomes SUSPEND.
pub fn release(words: &mut [u32; STATE_WORDS], t: u32, code: u32, word: u32)
    ensures { words.new ≡ released t code word words.old }
{
    match Column::Status.get(words, t) {
        WAIT => {
            end_wait(words, t, code, word);
            make_ready(words, t);
        }
        WAIT_SUSPEND => {
            end_wait(words, t, code, word);
            Column::Status.set(words, t, SUSPEND);
            leave(words, t);
        }
        _ => {}
    }
}

// What a task waits for, as its columns say it.
#[derive(Clone, Copy)]
struct Awaited {
    kind: u32,
    object: u32,
    wish: u32,
    mode: u32,
    ticks: u32,
}

// Writes that task t waits, and for what.
fn write_wait(words: &mut [u32; STATE_WORDS], t: u32, w: Awaited)
    ensures { words.new ≡ awaiting t w.kind w.object w.wish w.mode w.ticks words.old }
{
    Column::Status.set(words, t, WAIT);
    Column::Kind.set(words, t, w.kind);
    Column::Object.set(words, t, w.object);
    Column::Wish.set(words, t, w.wish);
    Column::Mode.set(words, t, w.mode);
    Column::Ticks.set(words, t, w.ticks);
}

// Task t sleeps: for ever (ASLEEP), or for so many ticks (TIMED).
pub fn sleep(words: &mut [u32; STATE_WORDS], t: u32, kind: u32, ticks: u32)
    ensures { words.new ≡ slept t kind ticks words.old }
{
    let w = Awaited {
        kind,
        object: 0,
        wish: 0,
        mode: 0,
        ticks,
    };
    write_wait(words, t, w);
    leave(words, t);
}

// Task t waits on an object, last in its queue.
pub fn wait(words: &mut [u32; STATE_WORDS], t: u32, kind: u32, object: u32, wish: u32, mode: u32)
    ensures { words.new ≡ waited t kind object wish mode words.old }
{
    let w = Awaited {
        kind,
        object,
        wish,
        mode,
        ticks: 0,
    };
    write_wait(words, t, w);
    leave(words, t);
    push(words, wait_anchor(kind, object), t);
}
