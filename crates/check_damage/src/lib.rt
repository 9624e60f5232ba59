// What is broken in a memory that is no sound state: the first rule, and the smallest id at which it is broken. It runs
// only where the check has failed.
#![tactic(auto)]

ghost use Rattle.std.specs.Prelude.{◌≡◌};
ghost use Rattle.rules.specs.Codes.{number};
ghost use Rattle.rules.specs.Breach as Rules;
ghost use Rattle.memory_picture.specs.Picture.{view_shown};
ghost use Rattle.check_damage.specs.Damage as Damage;
ghost use Rattle.check_damage.specs.Judged.{Judged};

use check_lines::{few, message_once, numbers_ok, pool_listed, task_placed};
use check_state::{accepts, unserved_ok};
use memory_columns::{MESSAGE_WORDS, MESSAGES, POOLS, STATE_WORDS, TASKS};

// A number out of range, or a breach that no other code names; a task missing from, doubled in or foreign to a queue; a waiter beside what
// would serve it; a message held twice; a free block missing from, doubled in or foreign to the queue of its pool.
pub const H_NUMBER: i32 = -20;

pub const H_QUEUE: i32 = -21;

pub const H_SERVED: i32 = -22;

pub const H_TWICE: i32 = -23;

pub const H_FREE: i32 = -24;

// The code of the rule that is broken, and the id at which it is, 0 for H_NUMBER.
#[derive(Clone, Copy, PartialEq, Eq)]
pub struct Breach {
    pub code: i32,
    pub id: u32,
}

// A rule is kept at ids 1 to n; or its code, and the smallest id at which it is broken.
fn keeps<F: Fn(u32) -> bool>(code: i32, n: u32, holds: F) -> Result<(), Breach>
    requires { F.IsAlwaysCallable holds }
    ensures { Damage.Keeps (F.post holds) code n result }
{
    for id in 1..=n {
        if !holds(id) {
            return Err(Breach { code, id });
        }
    }
    Ok(())
}

// The rules that name an id: rule after rule, each over all its ids before the next.
fn first_broken(words: &[u32; STATE_WORDS]) -> Result<(), Breach>
    ensures { Damage.told_by result ≡ Damage.first_broken words.now }
{
    keeps(H_QUEUE, few(words, TASKS), |t| task_placed(words, t))?;
    keeps(H_SERVED, few(words, TASKS), |t| unserved_ok(words, t))?;
    keeps(H_TWICE, few(words, MESSAGES), |m| message_once(words, m))?;
    keeps(H_FREE, few(words, POOLS), |p| pool_listed(words, p))
}

// What the rules tell of the view shown, for any words. A number out of range comes before all else, and a breach that no rule names behind
// all: the links disagree with themselves.
pub fn first_breach(words: &[u32; STATE_WORDS], messages: &[u32; MESSAGE_WORDS]) -> Breach
    ensures code_value { result.code ≡ number (Rules.breach (view_shown words.now messages.now)).code }
    ensures id_value { result.id ≡ (Rules.breach (view_shown words.now messages.now)).id }
{
    let unnamed = Breach {
        code: H_NUMBER,
        id: 0,
    };
    if !numbers_ok(words, messages) {
        return unnamed;
    }
    first_broken(words).err().unwrap_or(unnamed)
}

// Looks for damage, and names it only where there is some.
pub fn judged(words: &[u32; STATE_WORDS], messages: &[u32; MESSAGE_WORDS]) -> Result<(), Breach>
    ensures { Judged words.now messages.now result }
{
    if accepts(words, messages) {
        Ok(())
    } else {
        Err(first_breach(words, messages))
    }
}
