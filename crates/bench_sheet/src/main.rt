// Plays the table that stands on standard input, through the kernel's public functions, and writes each of its lines again with what
// came of it. The stored output was made by a kernel of its own, written from the paper alone.
//
// A line begins with a letter that says what is done, and its numbers follow; all other text is for the reader:
//   S w w ..     the words of the setup, at most 40
//   F n          a fresh start over the setup's first n bytes
//   W i v        word i of the state is overwritten by v; M: the mark at index i of the messages
//   X k a b c    call k from a task; I: from a handler; N, Q: from the contexts -1 and 5
//   (            the entry of a handler; ): its return
//   H k a b c    entry, call k from the handler, return: the call's answer with the running task of the return's; a refused call
//                must leave the state after the return as it was before the entry
//   P x k a      call k from context x: 2, 3 and 4 are none, though in a list they are kinds; not among the events of E and R
//   T            a tick
//   C t          the cell of task t
//   A v          how many words, each overwritten by v alone, make the state a damaged one
//   E x y z      the events since the last F, W or M at once, by `events`: the list x words too short, with place for y codes and z
//                words too few
//   R x y z n    the same by `run`, over the setup's first n bytes
#![tactic(auto)]

mod memory;
mod text;
mod turns;

use crate::memory::{SETUP, State, cell, damages, lay, look, overwrite, start};
use crate::text::{first_byte, nth, say, word};
use crate::turns::{
    ENTRY, EVENTS, HANDLER, List, RETURN, TASK, TICK, Turn, at_once, happen, stray,
};
use memory_columns::STATE_WORDS;
use std::io::Print;
use streams::read_full;

// Room for the table.
const SPACE: usize = 65536;

// What the lines so far have made: the setup, the state, the state after the last F, W or M, and the events since.
#[derive(Clone, Copy)]
struct Sheet {
    setup: [u8; SETUP],
    state: State,
    first: State,
    list: List,
}

// The events of a line by its letter, if it is a line of events.
fn turn_of(letter: u8) -> Option<Turn> {
    match letter {
        b'X' => Some(Turn::Alone(TASK)),
        b'I' => Some(Turn::Alone(HANDLER)),
        b'T' => Some(Turn::Alone(TICK)),
        b'(' => Some(Turn::Alone(ENTRY)),
        b')' => Some(Turn::Alone(RETURN)),
        b'H' => Some(Turn::Handled),
        b'N' => Some(Turn::Alone(-1)),
        b'Q' => Some(Turn::Alone(5)),
        _ => None,
    }
}

// A line that makes another state; gives whether it is one.
fn prepared(
    out: &impl Print,
    line: &[u8],
    letter: u8,
    setup: &[u8; SETUP],
    state: &mut State,
) -> bool {
    match letter {
        b'F' => start(out, line, setup, state),
        b'W' => {
            overwrite(&mut state.words, word(line, 1) as usize, word(line, 2));
            look(out, state);
        }
        b'M' => {
            overwrite(&mut state.messages, word(line, 1) as usize, word(line, 2));
            look(out, state);
        }
        _ => return false,
    }
    true
}

// Does what a line says.
fn obey(out: &impl Print, line: &[u8], sheet: &mut Sheet) {
    say(out, line);
    let letter = first_byte(line);
    if let Some(turn) = turn_of(letter) {
        happen(out, line, turn, &mut sheet.state, &mut sheet.list);
        return;
    }
    if prepared(out, line, letter, &sheet.setup, &mut sheet.state) {
        let made = sheet.state;
        sheet.first = made;
        sheet.list.n = 0;
        return;
    }
    match letter {
        b'S' => {
            lay(&mut sheet.setup, line);
            say(out, b"\n");
        }
        b'P' => stray(
            out,
            &mut sheet.state,
            nth(line, 1),
            nth(line, 2),
            nth(line, 3),
        ),
        b'C' => cell(out, &sheet.state, nth(line, 1)),
        b'A' => damages(out, &mut sheet.state, word(line, 1)),
        b'E' => at_once(out, line, None, &sheet.first, &sheet.list),
        b'R' => at_once(out, line, Some(&sheet.setup), &sheet.first, &sheet.list),
        _ => say(out, b"\n"),
    }
}

fn play(out: &impl Print, text: &[u8]) {
    let state = State {
        words: [0; STATE_WORDS],
        messages: [0; 256],
    };
    let mut sheet = Sheet {
        setup: [0; SETUP],
        state,
        first: state,
        list: List {
            events: [[0; 5]; EVENTS],
            n: 0,
        },
    };
    for line in text.split_inclusive(|byte| *byte == b'\n') {
        obey(out, line.strip_suffix(b"\n").unwrap_or(line), &mut sheet);
    }
}

fn main(rt: HostRuntime) {
    let mut space = [0u8; SPACE];
    let n = read_full(&mut rt.stdin(), &mut space);
    play(&rt.stdout(), &space[..n]);
}
