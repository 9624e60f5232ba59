// set_flg: the waiters are looked at in order, in one walk along their queue, up to the first that is released with clearing.
// `i` is the flag that the call names. The contract speaks of an accepted memory, where what is named is there
// (`DoesOnWords`).
#![tactic(auto)]

ghost use Rattle.std.specs.Prelude.{◌≡◌, ◌≤◌, ◌+◌, pos};
ghost use Rattle.rules.specs.State as Kind;
ghost use Rattle.rules.specs.Objects.{set_flg};
ghost use Rattle.call_words.specs.Doing.{DoesOnWords};
ghost use Rattle.call_words.specs.Naming.{NamesObject};
ghost use Rattle.call_flag_walk.specs.Serving.{made, looked_at_next, served, left_by};

use call_flags::CLEARING;
use call_words::{Outcome, reports};
use memory_columns::{CELL_OK, Column, FLAG, MAX_TASKS, Rings, STATE_WORDS, TASKS, at_most};
use memory_objects::flags::meets;
use memory_queues::{follow, wait_anchor};
use memory_waits::release;

// How many tasks are released so far, how many were looked at, and whether the last one cleared the pattern.
#[derive(Clone, Copy)]
struct Walked {
    released: u32,
    looked: u32,
    cleared: bool,
}

// Task x is released if the pattern meets what it asks for.
fn look(words: &mut [u32; STATE_WORDS], x: u32, pattern: u32, w: Walked) -> Walked
    requires { (w.released ≤ 32) × (w.looked ≤ 32) }
    ensures cleared_after { made words.new result.released result.looked result.cleared ≡ looked_at_next pattern x
        (made words.old w.released w.looked w.cleared) }
    ensures released_bound { (result.released ≤ w.released + 1) × (result.looked ≤ w.looked + 1) }
{
    let looked = w.looked + 1;
    let how = Column::Mode.get(words, x);
    if !meets(pattern, Column::Wish.get(words, x), how) {
        return Walked { looked, ..w };
    }
    release(words, x, CELL_OK, pattern);
    Walked {
        released: w.released + 1,
        looked,
        cleared: CLEARING <= how,
    }
}

// The waiters on flag i, in order. Behind a clearing nobody would be released. More steps than there are tasks only a
// damaged memory would take.
fn serve(words: &mut [u32; STATE_WORDS], i: u32, pattern: u32) -> Walked
    ensures { made words.new result.released result.looked result.cleared ≡ served i pattern words.old }
{
    let n = at_most(Column::System.get(words, TASKS), MAX_TASKS);
    let mut x = follow(words, Rings::Tasks, wait_anchor(FLAG, i));
    let mut w = Walked {
        released: 0,
        looked: 0,
        cleared: false,
    };
    for _ in 0..n {
        if n < x {
            break;
        }
        // A release changes the links of x.
        let behind = follow(words, Rings::Tasks, x);
        w = look(words, x, pattern, w);
        if w.cleared {
            return w;
        }
        x = behind;
    }
    w
}

// What is left of the pattern after the walk.
fn left_by(pattern: u32, cleared: bool) -> u32
    ensures { result ≡ left_by pattern cleared }
{
    if cleared { 0 } else { pattern }
}

// 16 set_flg: p is ORed in, then each waiter whose condition holds is released, in order. The pattern is written last;
// w1 is how many were looked at.
pub fn set_flg(words: &mut [u32; STATE_WORDS], i: u32, p: u32) -> Outcome
    ensures { DoesOnWords (NamesObject Kind.flag i) (λ v. set_flg v (pos i) (pos p)) result words.old words.new }
{
    let pattern = Column::Flag.get(words, i) | p;
    let w = serve(words, i, pattern);
    Column::Flag.set(words, i, left_by(pattern, w.cleared));
    reports(w.looked, w.released)
}
