// Many events, one after the other: the state is checked once, at the beginning, and the running task is carried from event to event.
#![tactic(auto)]

ghost use Rattle.std.specs.Prelude.{◌≡◌, length, Ok};
ghost use Rattle.memory_picture.specs.Picture.{memory};
ghost use Rattle.kernel_batches.specs.Batches.{fit_of, lent, RanThrough, Batched, RunsFrom};
ghost use Rattle.kernel_batches.specs.declared.RunError.TheVariants as RunError;

use kernel_serving::serve_all;
use kernel_steps::look;
use memory_columns::STATE_WORDS;
use setup_sections::Refusal;

// Why nothing ran: the event words are no multiple of five; there is no place for each code; or for each event's four words.
// The first that applies is said.
#[derive(Clone, Copy)]
pub enum Unfit {
    Ragged,
    FewCodes,
    FewWords,
}

// Why nothing ran: the batch; then the setup's fault and its place.
#[derive(Clone, Copy)]
pub enum RunError {
    Unfit(Unfit),
    Refused(Refusal),
}

impl From<Unfit> for RunError {
    ghost from_gives = { λ u e. e ≡ RunError.Unfit u };

    fn from(u: Unfit) -> RunError {
        RunError::Unfit(u)
    }
}

impl From<Refusal> for RunError {
    ghost from_gives = { λ r e. e ≡ RunError.Refused r };

    fn from(r: Refusal) -> RunError {
        RunError::Refused(r)
    }
}

// From the numbers of event words, and of codes and answer words that there is place for.
#[tactic(auto, unfolding(crate::specs::Batches::fit_of))]
fn fit(events: usize, codes: usize, answers: usize) -> Result<(), Unfit>
    ensures { result ≡ fit_of events codes answers }
{
    if events % 5 != 0 {
        return Err(Unfit::Ragged);
    }
    let n = events / 5;
    if codes < n {
        return Err(Unfit::FewCodes);
    }
    if answers / 4 < n {
        return Err(Unfit::FewWords);
    }
    Ok(())
}

// All events, where there is place for their answers.
fn run_all(
    words: &mut [u32; STATE_WORDS],
    messages: &mut [u32; 256],
    events: &[i32],
    codes: &mut [i32],
    answers: &mut [u32],
)
    requires { fit_of (length events.now) (length codes.old) (length answers.old) ≡ Ok tt }
    ensures { RanThrough events.now
        (lent (memory words.old messages.old) codes.old answers.old)
        (lent (memory words.new messages.new) codes.new answers.new) }
{
    let known = look(words, messages);
    serve_all(words, messages, known, events, codes, answers);
}

// The events, five words each. The code of event i goes to codes[i], its words to answers[4 i] and the next three.
pub fn events(
    words: &mut [u32; STATE_WORDS],
    messages: &mut [u32; 256],
    events: &[i32],
    codes: &mut [i32],
    answers: &mut [u32],
) -> Result<(), Unfit>
    ensures { Batched events.now result
        (lent (memory words.old messages.old) codes.old answers.old)
        (lent (memory words.new messages.new) codes.new answers.new) }
{
    fit(events.len(), codes.len(), answers.len())?;
    run_all(words, messages, events, codes, answers);
    Ok(())
}

// A fresh kernel, then the events.
pub fn run(
    setup: &[u8],
    words: &mut [u32; STATE_WORDS],
    messages: &mut [u32; 256],
    events: &[i32],
    codes: &mut [i32],
    answers: &mut [u32],
) -> Result<(), RunError>
    ensures { RunsFrom setup.now events.now result
        (lent (memory words.old messages.old) codes.old answers.old)
        (lent (memory words.new messages.new) codes.new answers.new) }
{
    fit(events.len(), codes.len(), answers.len())?;
    kernel_start::start(setup, words, messages)?;
    run_all(words, messages, events, codes, answers);
    Ok(())
}
