// The reader of two setups and one run: all of it is judged before anything runs. The contracts cite `compared`, whose
// places are counted from the input's start.
#![tactic(auto)]

ghost use Rattle.std.specs.Prelude.{◌≡◌};
ghost use Rattle.rules.specs.Setup.{at_end};
ghost use Rattle.setup_sections.specs.Judging.{judged_of};
ghost use Rattle.run_compare_reading.specs.Compared.{read_events, Judges};

use run_reading::{EVENT, HEAD};
use setup::at_end;
use setup_sections::{Refusal, Shape, Span, judge_section};

// The most events, and the words of each: kind, call and three arguments.
pub const EVENTS: usize = 3000;

pub const WORDS_OF_EVENT: usize = 5;

// More bytes than any input has that is not refused: what stands behind them changes nothing.
pub const INPUT: usize = 2 * HEAD + EVENT * EVENTS;

// Where the second setup begins, and where the count of events stands.
#[derive(Clone, Copy)]
pub struct Places {
    pub second: usize,
    pub events: usize,
}

// ---- the events

// The count of events at an offset, five words for each, and nothing may follow.
fn judge_events(bytes: &[u8], at: usize) -> Result<usize, Refusal>
    ensures { result ≡ judged_of (at_end bytes.now (read_events bytes.now at)) }
{
    let any = Span::new(0, u32::MAX);
    let event = Shape {
        words: WORDS_OF_EVENT as u32,
        first: any,
        others: any,
    };
    at_end(
        bytes.len(),
        judge_section(bytes, Span::new(0, EVENTS as u32), event, at),
    )
}

// ---- the whole

// Two setups and a run.
pub fn judge(bytes: &[u8]) -> Result<Places, Refusal>
    ensures { Judges bytes.now result }
{
    let second = setup::judge(bytes, 0)?;
    let events = setup::judge(bytes, second)?;
    judge_events(bytes, events)?;
    Ok(Places { second, events })
}
