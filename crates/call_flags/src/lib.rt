// The calls on flags but set_flg (crate `call_flag_walk`): what is left of each once the common refusals are out of the way
// (crate `call_judging`). `i` is the flag that the call names. The contracts speak of an accepted memory, where what is
// named is there (`DoesOnWords`).
#![tactic(auto)]

ghost use Rattle.std.specs.Prelude.{MatchOption, true, false, ◌≡◌, pos};
ghost use Rattle.rules.specs.State as Kind;
ghost use Rattle.rules.specs.State.{on};
ghost use Rattle.rules.specs.Verdicts as Verdicts;
ghost use Rattle.rules.specs.Objects.{polls, met, left, clr_flg, take_flg};
ghost use Rattle.memory_columns.specs.Layout as Layout;
ghost use Rattle.memory_columns.specs.Layout.{entry, put};
ghost use Rattle.call_words.specs.Doing.{DoesOnWords};
ghost use Rattle.call_words.specs.Naming.{NamesObject};

use call_words::codes::H_POLL;
use call_words::{Outcome, done, gives, refuse, waits};
use memory_columns::{Column, FLAG, STATE_WORDS};
use memory_objects::flags::meets;
use memory_waits::wait;

// The modes from which on the pattern is cleared on success.
pub const CLEARING: u32 = 2;

// What is left of a pattern that has met a wish.
fn left_of(have: u32, mode: u32) -> u32
    ensures { result ≡ left have mode }
{
    if CLEARING <= mode { 0 } else { have }
}

// 17 clr_flg: the pattern keeps the bits that p has.
pub fn clr_flg(words: &mut [u32; STATE_WORDS], i: u32, p: u32) -> Outcome
    ensures { DoesOnWords (NamesObject Kind.flag i) (λ v. clr_flg v (pos i) (pos p)) result words.old words.new }
{
    let n = Column::Flag.get(words, i);
    Column::Flag.set(words, i, n & p);
    done()
}

// The pattern is taken, if it meets what is asked for: as it was.
fn take(words: &mut [u32; STATE_WORDS], i: u32, p: u32, t: u32) -> Option<u32>
    ensures { MatchOption result ((met (entry Layout.flag words.old i) p t ≡ false) × (words.new ≡ words.old))
        (λ n. (n ≡ entry Layout.flag words.old i) × (met n p t ≡ true) ×
        (words.new ≡ put Layout.flag i (left n t) words.old)) }
{
    let n = Column::Flag.get(words, i);
    if !meets(n, p, t) {
        return None;
    }
    Column::Flag.set(words, i, left_of(n, t));
    Some(n)
}

// 18 wai_flg: the caller takes the pattern p that it asks for in mode t, or waits.
pub fn wai_flg(words: &mut [u32; STATE_WORDS], me: u32, i: u32, p: u32, t: u32) -> Outcome
    ensures { DoesOnWords (NamesObject Kind.flag i)
        (λ v. take_flg v (pos i) (pos p) (pos t) (Verdicts.waits me (on Kind.flag i p t))) result words.old
        words.new }
{
    if let Some(n) = take(words, i, p, t) {
        return gives(n, 0);
    }
    wait(words, me, FLAG, i, p, t);
    waits()
}

// 19 pol_flg: the pattern is taken, if it meets what is asked for.
pub fn pol_flg(words: &mut [u32; STATE_WORDS], i: u32, p: u32, t: u32) -> Outcome
    ensures { DoesOnWords (NamesObject Kind.flag i) (λ v. take_flg v (pos i) (pos p) (pos t) polls) result
        words.old words.new }
{
    match take(words, i, p, t) {
        Some(n) => gives(n, 0),
        None => refuse(H_POLL),
    }
}
