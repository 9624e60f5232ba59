// The calls that sleep and wake: what is left of each once the common refusals are out of the way (crate `call_judging`). `i` is the task
// that the call names, `me` the caller. The contracts speak of an accepted memory, where what is named is there
// (`DoesOnWords`).
#![tactic(auto)]

ghost use Rattle.std.specs.Prelude.{true, false, ◌≡◌, ◌≢◌, ◌-◌, pos};
ghost use Rattle.rules.specs.Tasks.{waking, slp_tsk, wai_tsk, can_wup};
ghost use Rattle.memory_columns.specs.Layout as Layout;
ghost use Rattle.memory_columns.specs.Layout.{put};
ghost use Rattle.call_reading.specs.Reading.{wakeups_at};
ghost use Rattle.call_words.specs.Doing.{DoesOnWords};
ghost use Rattle.call_words.specs.Naming.{NamesTask, HasCaller};

use call_reading::{is_sleeping, stored};
use call_words::codes::{E_QOVR, E_TMOUT};
use call_words::{Outcome, done, gives, named, refuse, releases, waits};
use memory_columns::{ASLEEP, CELL_OK, Column, STATE_WORDS, TIMED};
use memory_waits::{release, sleep};

// The most wake-ups that are stored.
const MOST_WAKEUPS: u32 = 15;

// A stored wake-up is taken, if there is one.
fn take(words: &mut [u32; STATE_WORDS], me: u32) -> bool
    ensures taken { result ≡ true → (wakeups_at words.old me ≢ 0) ×
        (words.new ≡ put Layout.wakeups me (wakeups_at words.old me - 1) words.old) }
    ensures none { result ≡ false → (wakeups_at words.old me ≡ 0) × (words.new ≡ words.old) }
{
    let n = stored(words, me);
    if n == 0 {
        return false;
    }
    Column::Wakeups.set(words, me, n - 1);
    true
}

// 9 slp_tsk: the caller takes a stored wake-up, or waits for one.
pub fn slp_tsk(words: &mut [u32; STATE_WORDS], me: u32) -> Outcome
    ensures { DoesOnWords (HasCaller me) (λ v. slp_tsk v me) result words.old words.new }
{
    if take(words, me) {
        return done();
    }
    sleep(words, me, ASLEEP, 0);
    waits()
}

// 10 wai_tsk: the same, for a ticks at most: 0 does not wait, -1 waits for ever.
pub fn wai_tsk(words: &mut [u32; STATE_WORDS], me: u32, a: i32) -> Outcome
    ensures { DoesOnWords (HasCaller me) (λ v. wai_tsk v me a) result words.old words.new }
{
    if a < 0 {
        return slp_tsk(words, me);
    }
    if take(words, me) {
        return done();
    }
    let t = named(a);
    if t == 0 {
        return refuse(E_TMOUT);
    }
    sleep(words, me, TIMED, t);
    waits()
}

// 11 wup_tsk: the sleeper is released; any other task's wake-ups rise.
pub fn wup_tsk(words: &mut [u32; STATE_WORDS], i: u32) -> Outcome
    ensures { DoesOnWords (NamesTask i) (λ v. waking v.body i) result words.old words.new }
{
    if is_sleeping(words, i) {
        release(words, i, CELL_OK, 0);
        return releases(1);
    }
    let n = Column::Wakeups.get(words, i);
    if MOST_WAKEUPS <= n {
        return refuse(E_QOVR);
    }
    Column::Wakeups.set(words, i, n + 1);
    done()
}

// 12 can_wup: the wake-ups are counted and forgotten.
pub fn can_wup(words: &mut [u32; STATE_WORDS], i: u32) -> Outcome
    ensures { DoesOnWords (NamesTask i) (λ v. can_wup v (pos i)) result words.old words.new }
{
    let n = Column::Wakeups.get(words, i);
    Column::Wakeups.set(words, i, 0);
    gives(n, 0)
}
