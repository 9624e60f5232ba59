// The best task, the head of the nonempty ready queue with the smallest priority number, by the word of nonempty
// queues; and the running task, which is the best while no handler is open. That word as the queues have it is for the
// check.
#![tactic(auto)]

ghost use Rattle.std.specs.Prelude.{◌≡◌};
ghost use Rattle.rules.specs.State.{is_open};
ghost use Rattle.memory_picture.specs.Picture.{handlers_shown};
ghost use Rattle.memory_running.specs.Running.{ready_marks, best_of, running_of};

use memory_columns::{
    Column, DEPTH, INTERRUPTED, MAX_PRIORITIES, PRIORITIES, Rings, STATE_WORDS, at_most,
};
use memory_queues::{first, ready_anchor};

// The word of nonempty ready queues as the queues have it: bit p - 1 is priority p's.
pub fn ready_marks(words: &[u32; STATE_WORDS]) -> u32
    ensures { result ≡ ready_marks words.now }
{
    let n = at_most(Column::System.get(words, PRIORITIES), MAX_PRIORITIES);
    let mut marks = 0;
    for p in 1..n + 1 {
        if first(words, Rings::Tasks, ready_anchor(p)) != 0 {
            marks |= 1 << (p - 1);
        }
    }
    marks
}

// The head of the best ready queue of a memory whose links are whole; 0 if none is ready.
pub fn best_task(words: &[u32; STATE_WORDS]) -> u32
    ensures { result ≡ best_of words.now }
{
    let marks = Column::Nonempty.get(words, 0);
    if marks == 0 {
        return 0;
    }
    let p = marks.trailing_zeros() + 1;
    first(words, Rings::Tasks, ready_anchor(p))
}

// Whether a handler is open.
pub fn is_open(words: &[u32; STATE_WORDS]) -> bool
    ensures { result ≡ is_open (handlers_shown words.now) }
{
    Column::Handling.get(words, DEPTH) != 0
}

// The running task of such a memory: while a handler is open, the one that the outermost handler interrupted.
pub fn running_task(words: &[u32; STATE_WORDS]) -> u32
    ensures { result ≡ running_of words.now }
{
    if is_open(words) {
        Column::Handling.get(words, INTERRUPTED)
    } else {
        best_task(words)
    }
}
