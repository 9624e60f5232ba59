// Counts the recorded run on standard input, and writes one line: its 253 numbers, then its number of events and of
// tasks, with single spaces. An input that cannot be read is named on standard error, and nothing is written.
#![tactic(auto)]

use run_files::{Run, count_file};
use run_month::Record;
use std::io::Print;
use streams::{fail, print_decimal, write_all};

fn write_record(out: &impl Print, r: &Record) {
    for count in &r.counts {
        print_decimal(out, *count);
        write_all(out, b" ");
    }
}

fn write_run(out: &impl Print, run: &Run) {
    write_record(out, &run.record);
    print_decimal(out, run.events);
    write_all(out, b" ");
    print_decimal(out, run.tasks);
    write_all(out, b"\n");
}

fn main(rt: HostRuntime) {
    match count_file(&mut rt.stdin()) {
        Ok(run) => write_run(&rt.stdout(), &run),
        Err(unread) => fail(&rt.stderr(), b"standard input", unread.failure),
    }
}
