// Entry and return of a handler. The contracts speak of an accepted memory (`DoesOnWords`).
#![tactic(auto)]

ghost use Rattle.rules.specs.Handling.{entered, exited};
ghost use Rattle.call_words.specs.Doing.{Anything, DoesOnWords};
ghost use Rattle.call_words.specs.Naming.{Runs};

use call_words::codes::{E_CTX, H_NEST};
use call_words::{Outcome, done, refuse};
use memory_columns::{Column, DEPTH, INTERRUPTED, MAX_DEPTH, STATE_WORDS};
use memory_objects::handlers::nest;

// A handler begins while `me` runs: the outermost one interrupts it, and it runs on as long as one is open.
pub fn enter(words: &mut [u32; STATE_WORDS], me: u32) -> Outcome
    ensures { DoesOnWords (Runs me) entered result words.old words.new }
{
    let depth = Column::Handling.get(words, DEPTH);
    if MAX_DEPTH <= depth {
        return refuse(H_NEST);
    }
    nest(words, depth + 1, me);
    done()
}

// A handler ends. After the outermost one nobody is interrupted.
pub fn leave(words: &mut [u32; STATE_WORDS]) -> Outcome
    ensures { DoesOnWords Anything exited result words.old words.new }
{
    let depth = Column::Handling.get(words, DEPTH);
    if depth == 0 {
        return refuse(E_CTX);
    }
    if depth == 1 {
        nest(words, 0, 0);
        return done();
    }
    let interrupted = Column::Handling.get(words, INTERRUPTED);
    nest(words, depth - 1, interrupted);
    done()
}
