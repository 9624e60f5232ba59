// What the calls on tasks ask of a task's state.
#![tactic(auto)]

ghost use Rattle.std.specs.Prelude.{◌≡◌};
ghost use Rattle.call_reading.specs.Reading.{waits_at, halted_at, sleeps_at, wakeups_at, number_at, turn_at};

use memory_columns::{
    Column, READY, RUN, Rings, STATE_WORDS, SUSPEND, TASKS, TIMED, WAIT, WAIT_SUSPEND,
};
use memory_queues::{first, ready_anchor};
use memory_running::{best_task, running_task};

// WAIT or WAIT-SUSPEND.
pub fn is_waiting(words: &[u32; STATE_WORDS], i: u32) -> bool
    ensures { result ≡ waits_at words.now i }
{
    let s = Column::Status.get(words, i);
    s == WAIT || s == WAIT_SUSPEND
}

// SUSPEND or WAIT-SUSPEND.
pub fn is_suspended(words: &[u32; STATE_WORDS], i: u32) -> bool
    ensures { result ≡ halted_at words.now i }
{
    let s = Column::Status.get(words, i);
    s == SUSPEND || s == WAIT_SUSPEND
}

// Waits by slp_tsk or wai_tsk.
pub fn is_sleeping(words: &[u32; STATE_WORDS], i: u32) -> bool
    ensures { result ≡ sleeps_at words.now i }
{
    is_waiting(words, i) && Column::Kind.get(words, i) <= TIMED
}

// The wake-ups of task i, 0 for a number that is no task's.
pub fn stored(words: &[u32; STATE_WORDS], i: u32) -> u32
    ensures { result ≡ wakeups_at words.now i }
{
    if Column::System.get(words, TASKS) < i {
        0
    } else {
        Column::Wakeups.get(words, i)
    }
}

// 0 DORMANT, 1 READY, 2 RUN, 3 WAIT, 4 SUSPEND, 5 WAIT-SUSPEND.
pub fn state_number(words: &[u32; STATE_WORDS], i: u32) -> u32
    ensures { result ≡ number_at words.now i }
{
    let s = Column::Status.get(words, i);
    if s != READY {
        return s;
    }
    if running_task(words) == i { RUN } else { READY }
}

// The head of the ready queue of a priority, 0 if it is empty; priority 0 names the best queue.
pub fn ready_head(words: &[u32; STATE_WORDS], p: u32) -> u32
    ensures { result ≡ turn_at words.now p }
{
    if p == 0 {
        best_task(words)
    } else {
        first(words, Rings::Tasks, ready_anchor(p))
    }
}
