// The setup and the state: laid, looked at, damaged.
use crate::text::{field, say, upto, word};
use memory_columns::STATE_WORDS;
use std::io::Print;

// The bytes of the longest setup.
pub const SETUP: usize = 160;

#[derive(Clone, Copy, PartialEq, Eq)]
pub struct State {
    pub words: [u32; STATE_WORDS],
    pub messages: [u32; 256],
}

// The words of a line become the setup.
pub fn lay(setup: &mut [u8; SETUP], line: &[u8]) {
    for i in 0..SETUP / 4 {
        let w = word(line, i as u32 + 1);
        setup[4 * i..4 * i + 4].copy_from_slice(&w.to_le_bytes());
    }
}

pub fn fault(out: &impl Print, digit: u32, place: usize) {
    field(out, b": refused S", digit);
    field(out, b" at ", place);
}

// What a state shows at once: whether it is sound, and who runs.
pub fn look(out: &impl Print, state: &State) {
    if check_state::accepts(&state.words, &state.messages) {
        say(out, b", sound");
    } else {
        say(out, b", damaged");
    }
    let running = kernel_cells::running(&state.words, &state.messages);
    field(out, b", runs ", running);
    say(out, b"\n");
}

// A start over as many bytes of the setup as the line says.
pub fn start(out: &impl Print, line: &[u8], setup: &[u8; SETUP], state: &mut State) {
    let n = upto(line, 1, SETUP);
    match kernel_start::start(&setup[..n], &mut state.words, &mut state.messages) {
        Ok(()) => say(out, b": fresh"),
        Err(refusal) => fault(out, u32::from(refusal.fault), refusal.place),
    }
    look(out, state);
}

pub fn cell(out: &impl Print, state: &State, task: i32) {
    let cell = kernel_cells::cell(&state.words, &state.messages, task);
    field(out, b": ", cell.code);
    field(out, b" ", cell.word);
    say(out, b"\n");
}

pub fn overwrite(words: &mut [u32], at: usize, v: u32) {
    if let Some(word) = words.get_mut(at) {
        *word = v;
    }
}

// How many words, each overwritten alone, make it a damaged one. Each is put back.
fn sweep(state: &mut State, v: u32) -> u32 {
    let mut found: u32 = 0;
    for at in 0..STATE_WORDS {
        let kept = state.words[at];
        state.words[at] = v;
        let sound = check_state::accepts(&state.words, &state.messages);
        found += u32::from(!sound);
        state.words[at] = kept;
    }
    found
}

pub fn damages(out: &impl Print, state: &mut State, v: u32) {
    let found = sweep(state, v);
    field(out, b": ", found);
    say(out, b" times damaged\n");
}
