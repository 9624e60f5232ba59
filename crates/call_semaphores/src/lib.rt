// The calls on semaphores: what is left of each once the common refusals are out of the way (crate `call_judging`). `i`
// is the object that the call names, `me` the caller. The contracts speak of an accepted memory, where what is named is
// there (`DoesOnWords`).
#![tactic(auto)]

ghost use Rattle.std.specs.Prelude.{true, false, ◌≡◌, ◌≢◌, ◌-◌, pos};
ghost use Rattle.rules.specs.State as Kind;
ghost use Rattle.rules.specs.Objects.{polls, wait_on, sig_sem, take_sem};
ghost use Rattle.memory_columns.specs.Layout as Layout;
ghost use Rattle.memory_columns.specs.Layout.{entry, put};
ghost use Rattle.call_words.specs.Doing.{DoesOnWords};
ghost use Rattle.call_words.specs.Naming.{NamesObject};

use call_objects::first_waiter;
use call_words::codes::{E_QOVR, H_POLL};
use call_words::{Outcome, done, refuse, releases, waits};
use memory_columns::{CELL_OK, Column, SEMAPHORE, STATE_WORDS};
use memory_waits::{release, wait};

// The most that a semaphore counts.
const MOST_COUNT: u32 = 65535;

// 13 sig_sem: the first waiter is released, else the count rises.
pub fn sig_sem(words: &mut [u32; STATE_WORDS], i: u32) -> Outcome
    ensures { DoesOnWords (NamesObject Kind.semaphore i) (λ v. sig_sem v (pos i)) result words.old words.new }
{
    let x = first_waiter(words, SEMAPHORE, i);
    if x != 0 {
        release(words, x, CELL_OK, 0);
        return releases(1);
    }
    let n = Column::Semaphore.get(words, i);
    if MOST_COUNT <= n {
        return refuse(E_QOVR);
    }
    Column::Semaphore.set(words, i, n + 1);
    done()
}

// One is taken, if there is one.
fn take(words: &mut [u32; STATE_WORDS], i: u32) -> bool
    ensures taken { result ≡ true → (entry Layout.semaphore words.old i ≢ 0) ×
        (words.new ≡ put Layout.semaphore i (entry Layout.semaphore words.old i - 1) words.old) }
    ensures none { result ≡ false → (entry Layout.semaphore words.old i ≡ 0) × (words.new ≡ words.old) }
{
    let n = Column::Semaphore.get(words, i);
    if n == 0 {
        return false;
    }
    Column::Semaphore.set(words, i, n - 1);
    true
}

// 14 wai_sem: the caller takes one, or waits.
pub fn wai_sem(words: &mut [u32; STATE_WORDS], me: u32, i: u32) -> Outcome
    ensures { DoesOnWords (NamesObject Kind.semaphore i)
        (λ v. take_sem v (pos i) (wait_on me Kind.semaphore (pos i))) result words.old words.new }
{
    if !take(words, i) {
        wait(words, me, SEMAPHORE, i, 0, 0);
        return waits();
    }
    done()
}

// 15 preq_sem: one is taken, if there is one.
pub fn preq_sem(words: &mut [u32; STATE_WORDS], i: u32) -> Outcome
    ensures { DoesOnWords (NamesObject Kind.semaphore i) (λ v. take_sem v (pos i) polls) result words.old
        words.new }
{
    if !take(words, i) {
        return refuse(H_POLL);
    }
    done()
}
