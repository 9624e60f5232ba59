// Writing, and reading the numbers of a line.
ghost use Rattle.std.specs.Prelude.{◌≤◌};

use std::fmt::Display;
use std::io::Print;
use streams::{print_decimal, write_all};

// ---- writing

pub fn say(out: &impl Print, text: &[u8]) {
    write_all(out, text);
}

pub fn field<N: Display + Drop>(out: &impl Print, name: &[u8], x: N) {
    say(out, name);
    print_decimal(out, x);
}

// ---- reading

// A number of a line is looked for.
#[derive(Clone, Copy)]
struct Scan {
    // how many numbers end before it or with it; 0 once it is found
    left: u32,
    // whether a minus stands before the digits so far
    minus: bool,
    // what the digits so far are worth; none behind a byte that is no digit
    value: Option<u32>,
}

// One more digit; a number that has no room for it stays as it is.
fn grown(value: u32, digit: u8) -> u32 {
    if value < 400000000 {
        10 * value + u32::from(digit)
    } else {
        value
    }
}

fn scanned(s: Scan, byte: u8) -> Scan {
    let minus = byte == b'-';
    match (s.value, byte) {
        _ if s.left == 0 => s,
        (value, b'0'..=b'9') => Scan {
            value: Some(grown(value.unwrap_or(0), byte - b'0')),
            ..s
        },
        (None, _) => Scan { minus, ..s },
        (Some(_), _) if s.left == 1 => Scan { left: 0, ..s },
        (Some(_), _) => Scan {
            left: s.left - 1,
            minus,
            value: None,
        },
    }
}

// What was found; 0 if there is no such number or it is too large.
fn found(s: Scan) -> i32 {
    let value = match s.value {
        Some(value) if s.left == 0 => value,
        _ => 0,
    };
    let n = i32::try_from(value).unwrap_or(0);
    if s.minus { -n } else { n }
}

// Number k of a line, counted from 1.
pub fn nth(line: &[u8], k: u32) -> i32 {
    let start = Scan {
        left: k,
        minus: false,
        value: None,
    };
    let end = line.iter().fold(start, |s, byte| scanned(s, *byte));
    found(scanned(end, b' '))
}

// The same as a word with the same bits.
pub fn word(line: &[u8], k: u32) -> u32 {
    nth(line, k).cast_unsigned()
}

// The same as a place or a length: at most `most`.
pub fn upto(line: &[u8], k: u32, most: usize) -> usize
    ensures { result ≤ most }
{
    most.min(word(line, k) as usize)
}

pub fn first_byte(line: &[u8]) -> u8 {
    line.first().copied().unwrap_or(b'#')
}
