// The check of a memory: is it a sound state? Rules are tried in order: ranges, queues, nobody beside what would serve him. It is
// linear: each task, object and message that the counts name is looked at a few times, each ring is walked once.
#![tactic(auto)]

ghost use Rattle.std.specs.Prelude.{◌≡◌, true, ◌||◌, ◌↔◌, ◌≤◌, eqb};
ghost use Rattle.memory_columns.specs.Layout.{max_messages};
ghost use Rattle.memory_picture.specs.Picture.{Accepted};
ghost use Rattle.check_ranges.specs.Ranges.{every, ranges_ok};
ghost use Rattle.check_state.specs.Unserved as Unserved;

use check_queues::queued;
use check_ranges::ranges_ok;
use memory_columns::{
    Column, FLAG, MAILBOX, MESSAGE_WORDS, POOL, Rings, SEMAPHORE, STATE_WORDS, TASKS, WAIT,
    WAIT_SUSPEND,
};
use memory_objects::flags::meets;
use memory_queues::{first, mail_anchor};
use memory_running::ready_marks;

// ---- nobody beside what would serve him

// Nothing at the object would serve the wait of task t.
#[tactic(auto, unfolding(crate::specs::Unserved::wait_free))]
fn wait_free(words: &[u32; STATE_WORDS], t: u32) -> bool
    ensures { result ≡ Unserved.wait_free_at words.now t }
{
    let o = Column::Object.get(words, t);
    match Column::Kind.get(words, t) {
        SEMAPHORE => Column::Semaphore.get(words, o) == 0,
        FLAG => !meets(
            Column::Flag.get(words, o),
            Column::Wish.get(words, t),
            Column::Mode.get(words, t),
        ),
        MAILBOX => first(words, Rings::Messages, mail_anchor(o)) == 0,
        POOL => Column::Free.get(words, o) == 0,
        _ => true,
    }
}

// Whether a status is that of a waiting task.
fn waits(status: u32) -> bool
    ensures { result ≡ eqb status 3 || eqb status 5 }
{
    status == WAIT || status == WAIT_SUSPEND
}

#[tactic(auto, unfolding(crate::specs::Unserved::unserved_ok))]
pub fn unserved_ok(words: &[u32; STATE_WORDS], t: u32) -> bool
    ensures { result ≡ Unserved.unserved_ok words.now t }
{
    !waits(Column::Status.get(words, t)) || wait_free(words, t)
}

fn all_unserved(words: &[u32; STATE_WORDS], n: u32) -> bool
    requires { n ≤ max_messages }
    ensures { result ≡ every n 1 (Unserved.unserved_ok words.now) }
{
    (1..n + 1).all(|t| unserved_ok(words, t))
}

// ---- the whole

// Whether the word of nonempty ready queues is the one that the queues have.
fn ready_marked(words: &[u32; STATE_WORDS]) -> bool
    ensures { result ≡ Unserved.ready_marked words.now }
{
    Column::Nonempty.get(words, 0) == ready_marks(words)
}

// All rules, in order, or the ranges alone. Whoever asks for the ranges asks here, so that they are tried in one place
// and stand in the check itself.
#[tactic(auto, unfolding(crate::specs::Unserved::accepts))]
fn accepts_test(words: &[u32; STATE_WORDS], messages: &[u32; MESSAGE_WORDS], whole: bool) -> bool
    ensures { result ≡ Unserved.checks whole words.now messages.now }
{
    if !ranges_ok(words, messages) {
        return false;
    }
    !whole
        || (queued(words, messages, Rings::Tasks)
            && ready_marked(words)
            && queued(words, messages, Rings::Messages)
            && queued(words, messages, Rings::Blocks)
            && all_unserved(words, Column::System.get(words, TASKS)))
}

// True exactly when the memory is a sound state.
pub fn accepts(words: &[u32; STATE_WORDS], messages: &[u32; MESSAGE_WORDS]) -> bool
    ensures { (result ≡ true) ↔ Accepted words.now messages.now }
{
    accepts_test(words, messages, true)
}

// Whether every number but those that stand in queues lies in its range.
pub fn in_range(words: &[u32; STATE_WORDS], messages: &[u32; MESSAGE_WORDS]) -> bool
    ensures { result ≡ ranges_ok words.now messages.now }
{
    accepts_test(words, messages, false)
}
