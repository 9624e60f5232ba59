// The calls on alarms. `k` is an alarm that there is. The contracts speak of an accepted memory (`DoesOnWords`).
#![tactic(auto)]

ghost use Rattle.std.specs.Prelude.{◌≡◌, pos};
ghost use Rattle.rules.specs.Alarms.{set_abs, set_rel, can_alm, alm_sts};
ghost use Rattle.call_words.specs.Doing.{DoesOnWords};
ghost use Rattle.call_words.specs.Naming.{NamesAlarm};
ghost use Rattle.call_alarms.specs.Setting.{SetsAlarm, due_after};

use call_words::codes::{H_IDLE, H_USED};
use call_words::{Outcome, done, gives, refuse};
use memory_columns::{COUNTER_NOW, COUNTER_SIZE, Column, STATE_WORDS};
use memory_objects::alarms::set_alarm;

// So many ticks after a count, by remainder of the counter's size. The memory keeps an expiry as one more, 0 of an idle
// alarm.
pub fn due_after(now: u32, n: u32, size: u32) -> u32
    ensures { result ≡ due_after now n size }
{
    if size == 0 {
        return 0;
    }
    let rest = (u64::from(now) + u64::from(n)) % u64::from(size);
    rest as u32 + 1
}

// The idle alarm is set.
fn set_alm(words: &mut [u32; STATE_WORDS], k: u32, due: u32, period: u32) -> Outcome
    ensures { SetsAlarm k due period result words.old words.new }
{
    if Column::AlarmDue.get(words, k) != 0 {
        return refuse(H_USED);
    }
    let code = Column::AlarmCode.get(words, k);
    set_alarm(words, k, code, due, period);
    done()
}

// 36 set_abs: it is due at an absolute count.
pub fn set_abs(words: &mut [u32; STATE_WORDS], k: u32, count: u32, period: u32) -> Outcome
    ensures { DoesOnWords (NamesAlarm k) (λ v. set_abs v (pos k) (pos count) (pos period)) result words.old
        words.new }
{
    let size = Column::Counter.get(words, COUNTER_SIZE);
    let due = due_after(0, count, size);
    set_alm(words, k, due, period)
}

// 37 set_rel: it is due so many ticks after the present count.
pub fn set_rel(words: &mut [u32; STATE_WORDS], k: u32, count: u32, period: u32) -> Outcome
    ensures { DoesOnWords (NamesAlarm k) (λ v. set_rel v (pos k) (pos count) (pos period)) result words.old
        words.new }
{
    let present = Column::Counter.get(words, COUNTER_NOW);
    let size = Column::Counter.get(words, COUNTER_SIZE);
    let due = due_after(present, count, size);
    set_alm(words, k, due, period)
}

// 38 can_alm: the alarm in use goes idle.
pub fn can_alm(words: &mut [u32; STATE_WORDS], k: u32) -> Outcome
    ensures { DoesOnWords (NamesAlarm k) (λ v. can_alm v (pos k)) result words.old words.new }
{
    if Column::AlarmDue.get(words, k) == 0 {
        return refuse(H_IDLE);
    }
    let code = Column::AlarmCode.get(words, k);
    set_alarm(words, k, code, 0, 0);
    done()
}

// 39 alm_sts: whether it is in use, and its kept code without the sign.
pub fn alm_sts(words: &[u32; STATE_WORDS], k: u32) -> Outcome
    ensures { DoesOnWords (NamesAlarm k) (λ v. alm_sts v (pos k)) result words.now words.now }
{
    let in_use = Column::AlarmDue.get(words, k) != 0;
    gives(u32::from(in_use), Column::AlarmCode.get(words, k))
}
