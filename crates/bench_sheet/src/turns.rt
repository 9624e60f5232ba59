// Events, one by one and at once.
ghost use Rattle.std.specs.Prelude.{◌≤◌};

use crate::memory::{SETUP, State, fault};
use crate::text::{field, nth, say, upto};
use kernel_batches::{RunError, Unfit};
use kernel_steps::Answer;
use std::io::Print;

// The kinds of events in a list: numbers, since any number may stand there.
pub const TASK: i32 = 0;

pub const HANDLER: i32 = 1;

pub const TICK: i32 = 2;

pub const ENTRY: i32 = 3;

pub const RETURN: i32 = 4;

// What a line of events says.
#[derive(Clone, Copy)]
pub enum Turn {
    // one event of a kind
    Alone(i32),
    // three events: the entry of a handler, its call, its return
    Handled,
}

// The list has place for so many events.
pub const EVENTS: usize = 128;

// The events since a state was made, the first n.
#[derive(Clone, Copy)]
pub struct List {
    pub events: [[i32; 5]; EVENTS],
    pub n: usize,
}

// ---- one by one

// The answer to no event: what stands in the places for answers before anything is written there.
const BLANK: Answer = Answer {
    code: 77,
    w1: 77,
    w2: 77,
    running: 77,
    released: 77,
};

// Does event i of a list.
fn served(state: &mut State, list: &List, i: usize) -> Answer {
    let Some(event) = list.events.get(i) else {
        return BLANK;
    };
    let [kind, number, a, b, c] = *event;
    let words = &mut state.words;
    let messages = &mut state.messages;
    match kind {
        TICK => kernel_events::tick(words, messages),
        ENTRY => kernel_events::enter(words, messages),
        RETURN => kernel_events::leave(words, messages),
        _ => kernel_events::call(words, messages, kind, number, a, b, c),
    }
}

// Says what is to be, or that it is not so.
fn verdict(out: &impl Print, text: &[u8], holds: bool) {
    if !holds {
        say(out, b", NOT");
    }
    say(out, text);
}

// An answer, and whether the state is as it was: so it must be if the event was refused.
fn tell(out: &impl Print, r: Answer, same: bool) {
    field(out, b": ", r.code);
    field(out, b" ", r.w1);
    field(out, b" ", r.w2);
    field(out, b", runs ", r.running);
    field(out, b", released ", r.released);
    if r.code < 0 {
        verdict(out, b", unchanged", same);
    }
    say(out, b"\n");
}

// An event of a kind, with the numbers of a line, is kept in the list and done. One that finds no place there is neither.
fn alone(line: &[u8], kind: i32, state: &mut State, list: &mut List) -> Answer {
    let i = list.n;
    if i < EVENTS {
        list.events[i] = [kind, nth(line, 1), nth(line, 2), nth(line, 3), nth(line, 4)];
        list.n = i + 1;
    }
    served(state, list, i)
}

// A handler's call between entry and return: the call's answer, but who runs is read at the return.
fn handled(line: &[u8], state: &mut State, list: &mut List) -> Answer {
    alone(b"", ENTRY, state, list);
    let answer = alone(line, HANDLER, state, list);
    let last = alone(b"", RETURN, state, list);
    Answer {
        running: last.running,
        ..answer
    }
}

// Does the event of a line, or its three, and tells what came of it.
pub fn happen(out: &impl Print, line: &[u8], turn: Turn, state: &mut State, list: &mut List) {
    let old = *state;
    let answer = match turn {
        Turn::Alone(kind) => alone(line, kind, state, list),
        Turn::Handled => handled(line, state, list),
    };
    tell(out, answer, *state == old);
}

// A call from any context; a list has calls from tasks and handlers alone.
pub fn stray(out: &impl Print, state: &mut State, context: i32, number: i32, a: i32) {
    let old = *state;
    let words = &mut state.words;
    let messages = &mut state.messages;
    let r = kernel_events::call(words, messages, context, number, a, 0, 0);
    tell(out, r, *state == old);
}

// ---- at once

// Says what came of a batch; gives whether it was done.
fn done(out: &impl Print, batch: Result<(), Unfit>) -> bool {
    match batch {
        Ok(()) => say(out, b": done"),
        Err(Unfit::Ragged) => say(out, b": ragged"),
        Err(Unfit::FewCodes) => say(out, b": few codes"),
        Err(Unfit::FewWords) => say(out, b": few words"),
    }
    batch.is_ok()
}

fn ran(out: &impl Print, run: Result<(), RunError>) -> bool {
    match run {
        Ok(()) => done(out, Ok(())),
        Err(RunError::Unfit(unfit)) => done(out, Err(unfit)),
        Err(RunError::Refused(refusal)) => {
            fault(out, u32::from(refusal.fault), refusal.place);
            false
        }
    }
}

// The places for the answers to a list's events.
#[derive(Clone, Copy)]
struct Written {
    codes: [i32; EVENTS],
    answers: [[u32; 4]; EVENTS],
}

// Whether an answer was written as the one to event i.
fn is_written(r: Answer, w: &Written, i: usize) -> bool {
    w.codes.get(i).copied() == Some(r.code)
        && w.answers.get(i).copied() == Some([r.w1, r.w2, r.running, r.released])
}

// Whether the first n events one by one give the answers that were written; behind them nothing is.
fn replayed(state: &mut State, list: &List, n: usize, w: &Written) -> bool {
    for i in 0..EVENTS {
        let r = if i < n { served(state, list, i) } else { BLANK };
        if !is_written(r, w, i) {
            return false;
        }
    }
    true
}

// A length that falls short by number k of the line.
fn short(line: &[u8], k: u32, whole: usize) -> usize
    ensures { result ≤ whole }
{
    whole - upto(line, k, whole)
}

// The events of the list at once, by `run` over a setup or by `events`, with the lengths that the line says. Gives whether they
// were done.
fn batch(
    out: &impl Print,
    line: &[u8],
    setup: Option<&[u8; SETUP]>,
    state: &mut State,
    list: &List,
    codes: &mut [i32; EVENTS],
    answers: &mut [[u32; 4]; EVENTS],
) -> bool {
    let n = list.n.min(EVENTS);
    let e = short(line, 1, 5 * n);
    let c = short(line, 2, n);
    let a = short(line, 3, 4 * n);
    let words = &mut state.words;
    let messages = &mut state.messages;
    let events = &list.events.as_flattened()[..e];
    let codes = &mut codes[..c];
    let answers = &mut answers.as_flattened_mut()[..a];
    match setup {
        Some(setup) => {
            let setup = &setup[..upto(line, 4, SETUP)];
            ran(
                out,
                kernel_batches::run(setup, words, messages, events, codes, answers),
            )
        }
        None => done(
            out,
            kernel_batches::events(words, messages, events, codes, answers),
        ),
    }
}

// A batch that is done must answer and leave the state as the events one by one do, one that is not must leave all as it was.
pub fn at_once(
    out: &impl Print,
    line: &[u8],
    setup: Option<&[u8; SETUP]>,
    first: &State,
    list: &List,
) {
    let mut all = *first;
    let mut w = Written {
        codes: [77; EVENTS],
        answers: [[77; 4]; EVENTS],
    };
    let ok = batch(
        out,
        line,
        setup,
        &mut all,
        list,
        &mut w.codes,
        &mut w.answers,
    );
    let mut one = *first;
    let n = if ok { list.n } else { 0 };
    let same = replayed(&mut one, list, n, &w);
    verdict(out, b", as one by one", same && one == all);
    say(out, b"\n");
}
