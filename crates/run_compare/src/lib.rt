// What does a changed setup change? Two setups and one run, from the bytes of the input to the bytes of the text. All
// of it is judged before anything runs; then the events run as a batch from each setup. The contracts cite
// `difference_of`, the text that the rules give from the bytes alone.
#![tactic(auto)]

ghost use Rattle.std.specs.Prelude.{map, ◌++◌, ◌≡◌, ◌+◌, ◌*◌, ◌≤◌, length, drop};
ghost use Rattle.run_reading.specs.Recorded.{signed_word};
ghost use Rattle.run_compare_reading.specs.Compared.{words_from};
ghost use Rattle.run_compare_text.specs.Output.{Shown};
ghost use Rattle.run_compare.specs.Difference.{difference_of};
ghost use Rattle.run_compare.specs.Playing.{RanFrom, BothRan};

use memory_columns::{MESSAGE_WORDS, STATE_WORDS};
use run_compare_reading::{EVENTS, WORDS_OF_EVENT};
use run_compare_text::{Answers, Short, WORDS_OF_ANSWER, show_changes, show_refusal};
use run_reading::signed;

// The words of all events, and those of all answers beside their codes.
const EVENT_WORDS: usize = WORDS_OF_EVENT * EVENTS;

const ANSWER_WORDS: usize = WORDS_OF_ANSWER * EVENTS;

// Places for the answers of a run.
#[derive(Drop)]
struct Lent {
    codes: [i32; EVENTS],
    answers: [u32; ANSWER_WORDS],
}

// The kernel's memory, the events, and the answers from the first setup and from the second.
#[derive(Drop)]
struct Work {
    words: [u32; STATE_WORDS],
    messages: [u32; MESSAGE_WORDS],
    events: [i32; EVENT_WORDS],
    first: Lent,
    second: Lent,
}

// The words from an offset on, as signed ones.
fn decode(bytes: &[u8], from: usize, events: &mut [i32])
    requires { (from ≤ length bytes.now + 4) × (length events.old ≤ 15000) }
    ensures { events.new ≡ map signed_word (words_from bytes.now (length events.old) from) }
{
    for (i, event) in events.iter_mut().enumerate() {
        *event = signed(setup_sections::word(bytes, from + 4 * i));
    }
}

// The events, n of them, from the fresh state of the setup that stands between two offsets.
fn run(
    input: &[u8],
    from: usize,
    to: usize,
    words: &mut [u32; STATE_WORDS],
    messages: &mut [u32; MESSAGE_WORDS],
    events: &[i32],
    n: usize,
    out: &mut Lent,
)
    requires { (from ≤ to) × (to ≤ length input.now) × (length events.now ≡ 5 * n) × (n ≤ 3000) }
    ensures { RanFrom input.now from to events.now n out.new.codes out.new.answers }
{
    // The setup was judged and all have room: nothing is refused.
    let _ = kernel_batches::run(
        &input[from..to],
        words,
        messages,
        events,
        &mut out.codes,
        &mut out.answers,
    );
}

// The n events behind the count at `at`, from the setup in front of `second` and from the one behind it.
fn run_both(input: &[u8], second: usize, at: usize, n: usize, work: &mut Work)
    requires { (second ≤ at) × (at ≤ length input.now) × (n ≤ 3000) }
    ensures { BothRan input.now second at n work.new.first.codes work.new.first.answers
        work.new.second.codes work.new.second.answers }
{
    let m = WORDS_OF_EVENT * n;
    decode(input, at + 4, &mut work.events[..m]);
    let given = &work.events[..m];
    run(
        input,
        0,
        second,
        &mut work.words,
        &mut work.messages,
        given,
        n,
        &mut work.first,
    );
    run(
        input,
        second,
        at,
        &mut work.words,
        &mut work.messages,
        given,
        n,
        &mut work.second,
    );
}

// What the second setup of an input changes in its run. It takes 190 kB of the stack: it is for the bench, not for the board.
pub fn compare(input: &[u8], text: &mut [u8]) -> Result<usize, Short>
    ensures { Shown (difference_of input.now) result text.old text.new }
{
    // Filled before the input is judged: a local is cleared where its function is entered, and behind a call the compiler would do it twice.
    let mut work = Work {
        words: [0; STATE_WORDS],
        messages: [0; MESSAGE_WORDS],
        events: [0; EVENT_WORDS],
        first: Lent {
            codes: [0; EVENTS],
            answers: [0; ANSWER_WORDS],
        },
        second: Lent {
            codes: [0; EVENTS],
            answers: [0; ANSWER_WORDS],
        },
    };
    match run_compare_reading::judge(input) {
        Err(refusal) => show_refusal(text, u32::from(refusal.fault), refusal.place),
        Ok(places) => {
            let n = setup_sections::word(input, places.events) as usize;
            run_both(input, places.second, places.events, n, &mut work);
            let first = Answers {
                codes: &work.first.codes,
                words: &work.first.answers,
            };
            let second = Answers {
                codes: &work.second.codes,
                words: &work.second.answers,
            };
            show_changes(text, n, first, second)
        }
    }
}
