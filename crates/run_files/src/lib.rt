// A recorded run read from an open file to its end, and counted. No contract can say what is read; what comes of the
// bytes is said in `run_figures`.
#![tactic(auto)]

use memory_columns::{Column, MESSAGE_WORDS, STATE_WORDS};
use run_figures::{Counted, count};
use run_month::Record;
use run_reading::HEAD;
use run_stream::{NUMBERS, at_end, begin};
use run_tally::{CODES, STATES, TASKS, flat};
use std::io::{Error, Read};

// The bytes that are read at once.
const BUFFER: usize = 65536;

// What a run came to: its record, how many events ran, how many tasks its setup has, and its refusal, if there is one.
#[derive(Clone, Copy)]
pub struct Run {
    pub record: Record,
    pub events: u64,
    pub tasks: u32,
    pub refusal: Option<Counted>,
}

// Why not all of a file was read, and what its run came to up to there.
#[derive(Clone, Copy)]
pub struct Unread {
    pub failure: Error,
    pub run: Run,
}

// How many events ran: each counts once among the codes. The sum of so few words does not wrap.
fn events(codes: &[u32; CODES]) -> u64 {
    codes
        .iter()
        .fold(0, |sum: u64, n| sum.wrapping_add(u64::from(*n)))
}

// The refusal that the end of the input brings, if there is one.
fn at_last(numbers: &[u32; NUMBERS], held: &[u8; HEAD]) -> Option<Counted> {
    match at_end(numbers, held) {
        Ok(_) => None,
        Err(refusal) => Some(Counted {
            number: u32::from(refusal.fault),
            place: refusal.place,
        }),
    }
}

// Counts a run to the end of its file or to its refusal. Where not all of it could be read, what came before is counted all the same.
pub fn count_file(file: &mut impl Read) -> Result<Run, Unread> {
    let mut numbers = [0u32; NUMBERS];
    begin(&mut numbers);
    let mut held = [0u8; HEAD];
    let mut words = [0u32; STATE_WORDS];
    let mut messages = [0u32; MESSAGE_WORDS];
    let mut table = [[0u32; STATES]; TASKS];
    let mut codes = [0u32; CODES];
    let mut buffer = [0u8; BUFFER];
    let mut refused = None;
    let mut failed = None;
    // A loop has to end and nothing says that a file does: no run uses up so many turns.
    for _ in 0..u64::MAX {
        let n = match file.read(&mut buffer) {
            Ok(n) => n,
            Err(failure) => {
                failed = Some(failure);
                0
            }
        };
        if n == 0 {
            break;
        }
        let said = count(
            &mut numbers,
            &mut held,
            &mut words,
            &mut messages,
            &mut table,
            &mut codes,
            &buffer[..n],
        );
        if said.number != 0 {
            refused = Some(said);
            break;
        }
    }
    let run = Run {
        record: flat(table, codes),
        events: events(&codes),
        tasks: Column::System.get(&words, memory_columns::TASKS),
        refusal: refused.or(at_last(&numbers, &held)),
    };
    match failed {
        None => Ok(run),
        Some(failure) => Err(Unread { failure, run }),
    }
}
