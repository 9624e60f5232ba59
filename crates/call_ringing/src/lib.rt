// The alarms' firing at a tick. `k` is an alarm that there is. The contracts speak of an accepted memory (`PerformsOnWords`).
#![tactic(auto)]

ghost use Rattle.std.specs.Prelude.{◌≡◌, ◌≤◌};
ghost use Rattle.rules.specs.State.{alarm_of};
ghost use Rattle.rules.specs.Alarms.{fired, rings};
ghost use Rattle.memory_columns.specs.Layout.{max_alarms};
ghost use Rattle.call_words.specs.Doing.{DoesOnWords};
ghost use Rattle.call_words.specs.Naming.{NamesAlarm};
ghost use Rattle.call_ringing.specs.Ringing.{due_again, due_at, PerformsOnWords, HasCounter};

use call_alarms::due_after;
use call_tasks::sta_tsk;
use call_wakeups::wup_tsk;
use call_words::codes::{E_DMT, E_NOEXS};
use call_words::{Outcome, refuse, unsigned};
use memory_columns::{
    ABSENT, COUNTER_NOW, COUNTER_SIZE, Column, DORMANT, MAX_ALARMS, STARTS, STATE_WORDS, at_most,
};
use memory_objects::alarms::set_alarm;

// The expiry after a firing: the period counts from the present.
fn due_again(words: &[u32; STATE_WORDS], period: u32) -> u32
    ensures { result ≡ due_again words.now period }
{
    if period == 0 {
        return 0;
    }
    let count = Column::Counter.get(words, COUNTER_NOW);
    let size = Column::Counter.get(words, COUNTER_SIZE);
    due_after(count, period, size)
}

// Whether alarm k is due at the present count.
fn is_due(words: &[u32; STATE_WORDS], k: u32) -> bool
    ensures { result ≡ due_at words.now k }
{
    let due = Column::AlarmDue.get(words, k);
    due != 0 && due - 1 == Column::Counter.get(words, COUNTER_NOW)
}

// Alarm k starts or wakes its task as a handler would.
fn strike(words: &mut [u32; STATE_WORDS], k: u32) -> Outcome
    ensures { DoesOnWords (NamesAlarm k) (λ v. fired v.body (alarm_of v.body.counter k)) result
        words.old words.new }
{
    let i = Column::AlarmTask.get(words, k);
    let s = Column::Status.get(words, i);
    if s == ABSENT {
        return refuse(E_NOEXS);
    }
    if Column::AlarmWakes.get(words, k) == STARTS {
        return sta_tsk(words, i);
    }
    if s == DORMANT {
        return refuse(E_DMT);
    }
    wup_tsk(words, i)
}

// Alarm k fires if it is due: it keeps the code, and goes idle or is set again. Whether a task is released: 1 or 0.
fn fire(words: &mut [u32; STATE_WORDS], k: u32) -> u32
    ensures performs_on_words { PerformsOnWords (NamesAlarm k) (λ v. rings v.body 1 k) result words.old words.new }
    ensures upper_bound { result ≤ 1 }
{
    if !is_due(words, k) {
        return 0;
    }
    let period = Column::AlarmPeriod.get(words, k);
    let due = due_again(words, period);
    let s = strike(words, k);
    let kept = unsigned(s.code);
    set_alarm(words, k, kept, due, period);
    at_most(s.released, 1)
}

// The alarms by number, on a memory with a counter: how many tasks they release.
pub fn ring(words: &mut [u32; STATE_WORDS]) -> u32
    ensures performs_on_words { PerformsOnWords HasCounter (λ v. rings v.body max_alarms 1) result words.old words.new }
    ensures upper_bound { result ≤ max_alarms }
{
    let mut count = 0;
    for k in 1..MAX_ALARMS + 1 {
        count += fire(words, k);
    }
    count
}
