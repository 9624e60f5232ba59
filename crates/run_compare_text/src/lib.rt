// The text of what differs between two runs of the same events, in a lent output: of each event at which their answers
// differ the two lines, then the number of such events; or the line of a refusal. Behind the output's end nothing is
// written and the places are counted all the same: so the length of a text is known before a byte of it is written.
#![tactic(auto)]

ghost use Rattle.std.specs.Prelude.{◌≡◌, [], ◌∷◌, ◌++◌, ◌+◌, ◌*◌, ◌≤◌, ◌<◌, length};
ghost use Rattle.run_text.specs.Lines.{event_line, refusal, count_line};
ghost use Rattle.run_text.specs.Output.{Wrote};
ghost use Rattle.run_compare_text.specs.Changes.{changes, change_lines};
ghost use Rattle.run_compare_text.specs.Rows.{numbers_of, row_at, changes_in, text_in, Lent, lent_count, lent_in};
ghost use Rattle.run_compare_text.specs.Output.{longest_text, Shown};

use run_compare_reading::EVENTS;
use run_text::{LINE, count_line, event_line, lay, refusal_line};

// No text is longer.
pub const TEXT: usize = 366005;

// The words of an answer beside its code.
pub const WORDS_OF_ANSWER: usize = 4;

// The text takes so many bytes. The output has fewer, and is as it was.
#[derive(Clone, Copy, PartialEq, Eq)]
pub struct Short {
    pub needed: usize,
}

// The answers of a run as they lie in the lent places: the codes, and the words beside them.
#[derive(Clone, Copy)]
pub struct Answers<'a> {
    pub codes: &'a [i32],
    pub words: &'a [u32],
}

// ---- an answer

#[derive(Clone, Copy, PartialEq)]
struct Row {
    code: i32,
    w1: u32,
    w2: u32,
    runs: u32,
    released: u32,
}

// Answer i of a run.
fn answer_at(run: Answers, i: usize) -> Row
    requires { (i + 1 ≤ length run.codes.now) × (4 * i + 4 ≤ length run.words.now) × (i < 3000) }
    ensures { numbers_of result ≡ row_at run.entry.codes.now run.entry.words.now i }
{
    let j = WORDS_OF_ANSWER * i;
    Row {
        code: run.codes[i],
        w1: run.words[j],
        w2: run.words[j + 1],
        runs: run.words[j + 2],
        released: run.words[j + 3],
    }
}

// ---- lines from a place on

// The line of an event's answer.
fn answer_line(text: &mut [u8], at: usize, i: u32, a: Row) -> usize
    requires { (at ≤ 900000) × (i < 10000) }
    ensures { (Wrote (event_line i (numbers_of a)) at text.old text.new result) × (result ≤ at + 61) }
{
    let mut line = [0u8; LINE];
    let n = event_line(&mut line, i, a.code, a.w1, a.w2, a.runs, a.released);
    lay(text, at, &line[..n]);
    at + n
}

// The lines of both answers.
fn both_lines(text: &mut [u8], at: usize, i: u32, a: Row, b: Row) -> usize
    requires { (at ≤ 800000) × (i < 10000) }
    ensures { (Wrote (event_line i (numbers_of a) ++ event_line i (numbers_of b)) at text.old text.new result)
        × (result ≤ at + 122) }
{
    let next = answer_line(text, at, i, a);
    answer_line(text, next, i, b)
}

// The place behind what is written, and how many events that is of.
#[derive(Clone, Copy)]
struct Listed {
    at: usize,
    events: u32,
}

// An event, if its answers differ.
fn list_event(text: &mut [u8], listed: Listed, i: u32, a: Row, b: Row) -> Listed
    requires { (listed.at ≤ 800000) × (i < 10000) × (listed.events ≤ 10000) }
    ensures { (Wrote (change_lines (changes i (numbers_of a ∷ []) (numbers_of b ∷ []))) listed.at
        text.old text.new result.at) ×
        (result.events ≡ listed.events + length (changes i (numbers_of a ∷ []) (numbers_of b ∷ []))) ×
        (result.at ≤ listed.at + 122) × (result.events ≤ listed.events + 1) }
{
    if a != b {
        let at = both_lines(text, listed.at, i, a, b);
        Listed {
            at,
            events: listed.events + 1,
        }
    } else {
        listed
    }
}

// All of n events.
fn list_events(text: &mut [u8], n: usize, first: Answers, second: Answers) -> Listed
    requires { Lent n first.codes.now first.words.now second.codes.now second.words.now }
    ensures { let all = changes_in n first.entry.codes.now first.entry.words.now second.entry.codes.now second.entry.words.now in
        (Wrote (change_lines all) 0 text.old text.new result.at) × (result.events ≡ length all) × (result.at ≤ 122 * n) ×
        (result.events ≤ n) }
{
    let mut listed = Listed { at: 0, events: 0 };
    for i in 0..n {
        let a = answer_at(first, i);
        let b = answer_at(second, i);
        listed = list_event(text, listed, i as u32 + 1, a, b);
    }
    listed
}

// The number of events, behind their lines.
fn end_text(text: &mut [u8], at: usize, events: u32) -> usize
    requires { (at ≤ 900000) × (events < 10000) }
    ensures { (Wrote (count_line events) at text.old text.new result) × (result ≤ at + 5) }
{
    let mut line = [0u8; LINE];
    let n = count_line(&mut line, events);
    lay(text, at, &line[..n]);
    at + n
}

// ---- the whole

// The text of n events.
fn text_of(text: &mut [u8], n: usize, first: Answers, second: Answers) -> usize
    requires { Lent n first.codes.now first.words.now second.codes.now second.words.now }
    ensures { (Wrote (text_in n first.entry.codes.now first.entry.words.now second.entry.codes.now second.entry.words.now) 0
        text.old text.new result) × (result ≤ longest_text) }
{
    let listed = list_events(text, n, first, second);
    end_text(text, listed.at, listed.events)
}

// n, if that many are no more than a run has and their answers are lent; else none.
fn lent(n: usize, run: Answers) -> usize
    ensures { result ≡ lent_count n (length run.entry.codes.now) (length run.entry.words.now) }
{
    if n <= EVENTS && n <= run.codes.len() && WORDS_OF_ANSWER * n <= run.words.len() {
        n
    } else {
        0
    }
}

// What differs between two runs of n events, where there is room for the text; of none, if the answers of n are not all lent.
pub fn show_changes(
    text: &mut [u8],
    n: usize,
    first: Answers,
    second: Answers,
) -> Result<usize, Short>
    ensures { let c = first.entry.codes.now in let w = first.entry.words.now in
        let d = second.entry.codes.now in let v = second.entry.words.now in
        Shown (text_in (lent_in n c w d v) c w d v) result text.old text.new }
{
    let k = lent(lent(n, first), second);
    let mut nowhere = [0u8; 1];
    let needed = text_of(&mut nowhere, k, first, second);
    if text.len() < needed {
        return Err(Short { needed });
    }
    Ok(text_of(text, k, first, second))
}

// The line of a refusal, where there is room for it.
pub fn show_refusal(text: &mut [u8], fault: u32, place: usize) -> Result<usize, Short>
    ensures { Shown (refusal fault place) result text.old text.new }
{
    let mut nowhere = [0u8; 1];
    let n = refusal_line(&mut nowhere, fault, place);
    if text.len() < n {
        return Err(Short { needed: n });
    }
    Ok(refusal_line(text, fault, place))
}
