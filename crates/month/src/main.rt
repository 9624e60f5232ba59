// The figures of a month: plays each recorded run named on the command line and writes the totals, 32 lines of seven
// numbers (tasks by id, states 0 to 6), then a line for each code with its count; or the one line "T1" or "T3". A file
// that cannot be read is named on standard error, and nothing is reported. Standard error has a line for each file that
// is done: its name, how many events ran, and the run's refusal, if there is one.
#![tactic(auto)]

use run_files::{Run, count_file};
use run_month::{COUNTS, RECORDS, Sum, Unreported, none, plus, report};
use run_tally::{CODE, STATES, TASKS};
use std::env::{Env, FillError};
use std::fs;
use std::fs::Files;
use std::io::{Error, Print};
use streams::{fail, print_decimal, write_all};

// Room for any path.
const PATH: usize = 4096;

// What the system calls an argument that is not there, one that is longer than a path, and one that is no text.
const INVALID: i32 = 22;

const LONG: i32 = 36;

const NO_TEXT: i32 = 84;

// ---- files

fn tell(err: &impl Print, path: &[u8], run: &Run) {
    write_all(err, path);
    write_all(err, b" ");
    print_decimal(err, run.events);
    if let Some(refusal) = run.refusal {
        write_all(err, b" refused ");
        print_decimal(err, refusal.number);
        write_all(err, b" ");
        print_decimal(err, refusal.place);
    }
    write_all(err, b"\n");
}

// The run of the file with that path.
fn run_at(files: &impl Files, path: &[u8]) -> Result<Run, Error> {
    let Ok(name) = str::from_utf8(path) else {
        return Err(Error::from_raw_os_error(NO_TEXT));
    };
    count_file(&mut fs::open(files, name)?).map_err(|unread| unread.failure)
}

// The run of the file that argument i names. Where it can't be read, it is named on standard error.
fn run_of(rt: &(impl Env + Files), err: &impl Print, i: usize) -> Option<Run> {
    let mut buf = [0u8; PATH];
    let (what, failure) = match rt.arg(i, &mut buf) {
        Ok(length) => {
            let path = &buf[..length];
            match run_at(rt, path) {
                Ok(run) => {
                    tell(err, path, &run);
                    return Some(run);
                }
                Err(failure) => (path, failure),
            }
        }
        Err(FillError::TooLong) => (&b"path"[..], Error::from_raw_os_error(LONG)),
        Err(FillError::NotPresent) => (&b"path"[..], Error::from_raw_os_error(INVALID)),
    };
    fail(err, what, failure);
    None
}

// How many arguments there are, the program's own name among them; one more than a month has records is enough.
fn arg_count(rt: &impl Env) -> usize {
    let mut path = [0u8; PATH];
    for n in 0..RECORDS + 2 {
        if let Err(FillError::NotPresent) = rt.arg(n, &mut path) {
            return n;
        }
    }
    RECORDS + 2
}

// The files that arguments 1 to n name. There is no sum where one cannot be read, and then no later one is.
fn add_files(rt: &(impl Env + Files), err: &impl Print, n: usize) -> Option<Sum> {
    let mut sum = none();
    for i in 1..=n {
        let run = run_of(rt, err, i)?;
        sum = plus(sum, run.record);
    }
    Some(sum)
}

// ---- the report

fn write_states(to: &impl Print, states: &[u32]) {
    for (i, n) in states.iter().enumerate() {
        print_decimal(to, *n);
        let last = i % STATES == STATES - 1;
        write_all(to, if last { b"\n" } else { b" " });
    }
}

fn write_codes(to: &impl Print, counts: &[u32]) {
    for (code, n) in CODE.iter().zip(counts) {
        print_decimal(to, *code);
        write_all(to, b" ");
        print_decimal(to, *n);
        write_all(to, b"\n");
    }
}

// T2 cannot be: the output has its length.
fn write_report(to: &impl Print, sum: Sum, records: usize) {
    let mut out = [0u32; COUNTS];
    match report(sum, records, &mut out) {
        Ok(()) => {
            let (states, codes) = out.split_at(STATES * TASKS);
            write_states(to, states);
            write_codes(to, codes);
        }
        Err(Unreported::Many) => write_all(to, b"T1\n"),
        Err(Unreported::Size) => write_all(to, b"T2\n"),
        Err(Unreported::Beyond) => write_all(to, b"T3\n"),
    }
}

// More files than a month has records are refused before one is read.
fn main(rt: HostRuntime) {
    let to = rt.stdout();
    let n = arg_count(&rt);
    if RECORDS + 1 < n {
        write_report(&to, none(), RECORDS + 1);
        return;
    }
    if n < 1 {
        return;
    }
    if let Some(sum) = add_files(&rt, &rt.stderr(), n - 1) {
        write_report(&to, sum, n - 1);
    }
}
