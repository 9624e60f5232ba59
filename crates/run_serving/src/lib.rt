// The event whose bytes a recorder holds, served. Whoever takes a recorded run in parts, for its text or for its
// figures, runs its events by this function.
#![tactic(auto)]

ghost use Rattle.std.specs.Prelude.{take};
ghost use Rattle.memory_picture.specs.Picture.{memory};
ghost use Rattle.kernel_steps.specs.Steps.{reply_of};
ghost use Rattle.kernel_steps.specs.Serving.{Serves};
ghost use Rattle.run_reading.specs.Recorded.{event_bytes, event_in};

use check_damage::Breach;
use kernel_serving::{Event, serve};
use kernel_steps::Answer;
use memory_columns::{MESSAGE_WORDS, STATE_WORDS};
use run_reading::{EVENT, HEAD, signed};
use setup_sections::word;

// Five words, kind, call, a, b, c, where it is known that the state is sound and who runs, or what is broken.
pub fn serve_held(
    held: &[u8; HEAD],
    words: &mut [u32; STATE_WORDS],
    messages: &mut [u32; MESSAGE_WORDS],
    known: Result<u32, Breach>,
) -> Answer
    ensures { Serves (event_in (take event_bytes held.now)) known
        (memory words.old messages.old) (reply_of result) (memory words.new messages.new) }
{
    let all = &held[..];
    let event = &all[..EVENT];
    let event = Event {
        kind: signed(word(event, 0)),
        number: signed(word(event, 4)),
        a: signed(word(event, 8)),
        b: signed(word(event, 12)),
        c: signed(word(event, 16)),
    };
    serve(words, messages, known, event)
}
