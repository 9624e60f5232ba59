// Every event on every memory: `call`, `tick`, `enter` and `leave`. Nobody has to check first.
#![tactic(auto)]

ghost use Rattle.rules.specs.Events as Events;
ghost use Rattle.memory_picture.specs.Picture.{memory};
ghost use Rattle.kernel_steps.specs.Steps.{reply_of, Step};

use call_judging::is_above;
use kernel_serving::{Event, HANDLER, serve, serve_enter, serve_leave, serve_tick};
use kernel_steps::{Answer, look, misnamed};
use memory_columns::STATE_WORDS;

// A call from a context (0 task, 1 handler) by its number.
pub fn call(
    words: &mut [u32; STATE_WORDS],
    messages: &mut [u32; 256],
    context: i32,
    number: i32,
    a: i32,
    b: i32,
    c: i32,
) -> Answer
    ensures { Step (Events.call context number a b c) (memory words.old messages.old)
        (reply_of result) (memory words.new messages.new) }
{
    let known = look(words, messages);
    if is_above(context, HANDLER) {
        return misnamed(known);
    }
    let event = Event {
        kind: context,
        number,
        a,
        b,
        c,
    };
    serve(words, messages, known, event)
}

// A tick.
pub fn tick(words: &mut [u32; STATE_WORDS], messages: &[u32; 256]) -> Answer
    ensures { Step Events.tick (memory words.old messages.now)
        (reply_of result) (memory words.new messages.now) }
{
    let known = look(words, messages);
    serve_tick(words, messages, known)
}

// The entry of a handler.
pub fn enter(words: &mut [u32; STATE_WORDS], messages: &[u32; 256]) -> Answer
    ensures { Step Events.enter (memory words.old messages.now)
        (reply_of result) (memory words.new messages.now) }
{
    let known = look(words, messages);
    serve_enter(words, messages, known)
}

// The return of a handler.
pub fn leave(words: &mut [u32; STATE_WORDS], messages: &[u32; 256]) -> Answer
    ensures { Step Events.exit (memory words.old messages.now)
        (reply_of result) (memory words.new messages.now) }
{
    let known = look(words, messages);
    serve_leave(words, messages, known)
}
