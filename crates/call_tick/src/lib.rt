// The tick: the waits that it ends are released, then the other timed waits lose one and the clock and the counter rise, then the alarms
// ring. The contract speaks of an accepted memory.
#![tactic(auto)]

ghost use Rattle.std.specs.Prelude.{◌≡◌, ◌≤◌};
ghost use Rattle.rules.specs.Ids.{once};
ghost use Rattle.rules.specs.Time.{ticked};
ghost use Rattle.memory_columns.specs.Layout.{max_tasks};
ghost use Rattle.memory_time.specs.Elapsing.{aged_all};
ghost use Rattle.call_words.specs.Doing.{Anything, DoesOnWords};
ghost use Rattle.call_tick.specs.Ticking.{last_tick, ends_at, expired_at, expired, expiries, tasks_at, any_from, has_left, has_one};

use call_ringing::ring;
use call_words::{Outcome, releases};
use memory_columns::{
    CELL_TMOUT, COUNTER_SIZE, Column, MAX_TASKS, STATE_WORDS, TASKS, TIMED, WAIT, WAIT_SUSPEND,
    at_most,
};
use memory_time::{age_all, step_clock, step_counter};
use memory_waits::release;

// A timed wait, suspended or not, with one tick left.
fn last_tick(status: u32, kind: u32, ticks: u32) -> bool
    ensures { result ≡ last_tick status kind ticks }
{
    (status == WAIT || status == WAIT_SUSPEND) && kind == TIMED && ticks == 1
}

// Task i is released with E_TMOUT if its wait ends with this tick: 1 if so, else 0.
fn expire(words: &mut [u32; STATE_WORDS], i: u32) -> u32
    ensures words_after { words.new ≡ expired_at i words.old }
    ensures value { (result ≡ once (ends_at words.old i)) × (result ≤ 1) }
{
    if last_tick(
        Column::Status.get(words, i),
        Column::Kind.get(words, i),
        Column::Ticks.get(words, i),
    ) {
        release(words, i, CELL_TMOUT, 0);
        return 1;
    }
    0
}

// The tasks 1 to n, in id order: how many are released.
fn expire_all(words: &mut [u32; STATE_WORDS], n: u32) -> u32
    requires { n ≤ 32 }
    ensures words_after { words.new ≡ expired n 1 words.old }
    ensures value { (result ≡ expiries n 1 words.old) × (result ≤ 32) }
{
    let mut count = 0;
    for i in 1..n + 1 {
        count += expire(words, i);
    }
    count
}

// Whether a tick is left of any task, also beyond their number: one loop over the whole column, with no branch in it, for the processor's
// vectors. The kernel leaves 0 where there is no timed wait; a memory that says more costs time and changes nothing.
fn any_left(words: &[u32; STATE_WORDS]) -> bool
    ensures { result ≡ any_from (has_left words.now) max_tasks 1 }
{
    let mut bits = 0;
    for i in 1..MAX_TASKS + 1 {
        bits |= Column::Ticks.get(words, i);
    }
    bits != 0
}

// Whether just one is left of any of the tasks 1 to n.
fn any_last(words: &[u32; STATE_WORDS], n: u32) -> bool
    requires { n ≤ 32 }
    ensures { result ≡ any_from (has_one words.now) n 1 }
{
    let mut any = false;
    for i in 1..n + 1 {
        any |= Column::Ticks.get(words, i) == 1;
    }
    any
}

// The waits that end with this tick: how many are released. Where none has its last tick, no task is looked at.
fn end_waits(words: &mut [u32; STATE_WORDS], n: u32) -> u32
    requires { n ≤ 32 }
    ensures words_after { words.new ≡ expired n 1 words.old }
    ensures value { (result ≡ expiries n 1 words.old) × (result ≤ 32) }
{
    if any_last(words, n) {
        return expire_all(words, n);
    }
    0
}

// The waits that end are released and the others lose one: how many are released. Where nothing is left of any there is nothing to do.
fn pass_waits(words: &mut [u32; STATE_WORDS]) -> u32
    ensures words_after { words.new ≡ aged_all (expired (tasks_at words.old) 1 words.old) }
    ensures value { (result ≡ expiries (tasks_at words.old) 1 words.old) × (result ≤ 32) }
{
    if any_left(words) {
        let n = at_most(Column::System.get(words, TASKS), MAX_TASKS);
        let count = end_waits(words, n);
        age_all(words);
        return count;
    }
    0
}

// A tick goes by.
pub fn tick(words: &mut [u32; STATE_WORDS]) -> Outcome
    ensures { DoesOnWords Anything ticked result words.old words.new }
{
    let count = pass_waits(words);
    step_clock(words);
    if Column::Counter.get(words, COUNTER_SIZE) == 0 {
        return releases(count);
    }
    step_counter(words);
    let rung = ring(words);
    releases(count + rung)
}
