// What comes back of an event: the answer to one that was served, and to one that was not because the state is damaged or
// the context is none. specs/ has what an event makes of a memory (`Step`), and runs (`Chain`).
#![tactic(auto)]

ghost use Rattle.std.specs.Prelude.{◌≡◌, cond, ◌&&◌, ◌||◌};
ghost use Rattle.memory_picture.specs.Picture.{memory};
ghost use Rattle.kernel_steps.specs.Steps.{reply, reply_of};
ghost use Rattle.kernel_steps.specs.Serving.{replied, Known, Misnames};

use call_words::codes::H_CALL;
use call_words::{Outcome, refuse};
use check_damage::{Breach, judged};
use memory_columns::{MESSAGE_WORDS, STATE_WORDS};
use memory_running::running_task;

// What comes back of an event: code, two words, the running task after it, and the number of tasks released.
#[repr(C)]
#[derive(Clone, Copy)]
pub struct Answer {
    pub code: i32,
    pub w1: u32,
    pub w2: u32,
    pub running: u32,
    pub released: u32,
}

// What an event answered, and who runs after it.
pub fn answer_of(o: Outcome, running: u32) -> Answer
    ensures { reply_of result ≡ replied o running }
{
    Answer {
        code: o.code,
        w1: o.w1,
        w2: o.w2,
        running,
        released: o.released,
    }
}

// Whether the state is sound: who runs if it is, what is broken if it is not. Whoever serves events looks first.
pub fn look(words: &[u32; STATE_WORDS], messages: &[u32; MESSAGE_WORDS]) -> Result<u32, Breach>
    ensures { Known result (memory words.now messages.now) }
{
    judged(words, messages)?;
    Ok(running_task(words))
}

// What is broken, and where.
pub fn damaged(broken: Breach) -> Answer
    ensures { reply_of result ≡ reply broken.code broken.id 0 0 0 }
{
    Answer {
        code: broken.code,
        w1: broken.id,
        w2: 0,
        running: 0,
        released: 0,
    }
}

// What a call from a context that is none answers.
pub fn misnamed(known: Result<u32, Breach>) -> Answer
    ensures { Misnames known (reply_of result) }
{
    match known {
        Ok(me) => answer_of(refuse(H_CALL), me),
        Err(broken) => damaged(broken),
    }
}

// A handler calls, and one is open.
pub fn handles(handler: bool, inside: bool) -> bool
    ensures { result ≡ handler && inside }
{
    handler && inside
}

// The task that calls: nobody from a handler, and nobody while one is open.
pub fn caller(handler: bool, inside: bool, me: u32) -> u32
    ensures { result ≡ cond (handler || inside) 0 me }
{
    if handler || inside { 0 } else { me }
}
