// The bytes of a recorded run: the setup and the count of events are judged as they stand, and an event's words are
// signed ones. The contracts cite `read_head` and `signed_word`. That the bytes may come in parts is said and proved here
// without code (`Recorder`, `any_division`).
#![tactic(auto)]

ghost use Rattle.std.specs.Prelude.{◌≡◌};
ghost use Rattle.setup_sections.specs.Judging.{judged_of};
ghost use Rattle.run_reading.specs.Recorded.{signed_word, read_head};

use setup_sections::{Fault, Refusal, Span, judge_word};

// The most events of a run.
pub const EVENTS: u32 = 1000000;

// The most bytes of a setup and the count of events behind it: 129 words, and one.
pub const HEAD: usize = 520;

// The bytes of an event: kind, call and three arguments.
pub const EVENT: usize = 20;

// The word with the same bits.
pub fn signed(w: u32) -> i32
    ensures { result ≡ signed_word w }
{
    w.cast_signed()
}

// The setup and the count of events that stand at the front of the bytes.
pub fn judge_head(bytes: &[u8]) -> Result<usize, Refusal>
    ensures { result ≡ judged_of (read_head bytes.now) }
{
    let at = setup::judge(bytes, 0)?;
    let count = Span::new(0, EVENTS);
    judge_word(bytes, count, Fault::S2, at)
}
