// Plays the recorded run on standard input as it comes: each read is a part, and its lines are written at once. The
// memory is fixed, however long the input is. After a refusal nothing more is read.
#![tactic(auto)]

ghost use Rattle.std.specs.Prelude.{◌≤◌, ◌<◌, length, IfSome};

use memory_columns::{MESSAGE_WORDS, STATE_WORDS};
use run_reading::HEAD;
use run_stream::NUMBERS;
use std::io::{Print, Read};
use streams::{read_some, write_all};

// The bytes that are read at once, and those of the lines that are written at once.
const INPUT: usize = 65536;

const OUTPUT: usize = 65536;

// Of what `part` says: there was no room for the rest.
const FULL: u32 = 6;

// What is kept of the run between its parts, and room for its lines.
#[derive(Clone, Copy)]
struct Player {
    numbers: [u32; NUMBERS],
    held: [u8; HEAD],
    words: [u32; STATE_WORDS],
    messages: [u32; MESSAGE_WORDS],
    text: [u8; OUTPUT],
}

fn show(out: &impl Print, text: &[u8], n: usize)
    requires { n ≤ length text.now }
{
    write_all(out, &text[..n]);
}

// A part of what was read. Gives how many bytes were taken, or none where the run was refused.
fn play_part(out: &impl Print, player: &mut Player, bytes: &[u8]) -> Option<usize>
    ensures { IfSome result (λ n. (0 < n) × (n ≤ length bytes.now)) }
{
    let p = run_recorder::part(
        &mut player.numbers,
        &mut player.held,
        &mut player.words,
        &mut player.messages,
        bytes,
        &mut player.text,
    );
    show(out, &player.text, p.written);
    let goes_on = p.number == 0 || p.number == FULL;
    (goes_on && 0 < p.taken).then_some(p.taken)
}

// All of what was read, in as many parts as it takes. Is more to be read?
fn play_read(out: &impl Print, player: &mut Player, bytes: &[u8]) -> bool {
    let mut rest = bytes;
    while !rest.is_empty() {
        let Some(n) = play_part(out, player, rest) else {
            return false;
        };
        rest = &rest[n..];
    }
    true
}

// Reads and plays what came, again and again. A proved loop has to end, and nothing says that an input does. So the loop has so many
// turns that no run uses them up.
fn play_all(input: &mut impl Read, out: &impl Print, player: &mut Player) {
    let mut file = [0u8; INPUT];
    for _ in 0..u64::MAX {
        let n = read_some(input, &mut file);
        if n == 0 || !play_read(out, player, &file[..n]) {
            return;
        }
    }
}

// The line of a refusal at the end.
fn play_end(out: &impl Print, player: &mut Player) {
    let p = run_recorder::end(&mut player.numbers, &player.held, &mut player.text);
    if p.number < FULL - 1 {
        show(out, &player.text, p.written);
    }
}

fn main(rt: HostRuntime) {
    let out = rt.stdout();
    let mut player = Player {
        numbers: [0; NUMBERS],
        held: [0; HEAD],
        words: [0; STATE_WORDS],
        messages: [0; MESSAGE_WORDS],
        text: [0; OUTPUT],
    };
    run_stream::begin(&mut player.numbers);
    play_all(&mut rt.stdin(), &out, &mut player);
    play_end(&out, &mut player);
}
