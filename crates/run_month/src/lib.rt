// The figures of a month: the records of up to 64 runs summed, number by number. A record is a struct, and the month a
// lent slice of them: `added`, `total` and `month` are thin and walked by hand, and leave the sums to functions on plain
// numbers. The contract of `month` cites `totals`, the exact sums.
#![tactic(auto)]

ghost use Rattle.std.specs.Prelude.{◌≡◌, true, length};
ghost use Rattle.run_month.specs.Capped.{capped, none, plus_of, total_from, total_of};
ghost use Rattle.run_month.specs.Monthly.{fits, digit, refusal, report_of, Reported};

// The numbers of a record: of each of 32 tasks the seven states, then the 29 codes.
pub const COUNTS: usize = 253;

// The most records of a month.
pub const RECORDS: usize = 64;

// The first number beyond a word.
const BEYOND: u64 = 4294967296;

// What one run comes to: of each task, by id, after how many events it was in each state, 0 to 6; then how often each code came back.
#[repr(C)]
#[derive(Clone, Copy)]
pub struct Record {
    pub counts: [u32; COUNTS],
}

// Sums of so many numbers, each of which stops at 2^32.
#[derive(Clone, Copy)]
pub struct Sum {
    pub sums: [u64; COUNTS],
}

// Why there is no report. The first that applies is said.
#[derive(Clone, Copy, PartialEq, Eq)]
pub enum Unreported {
    // T1: more than 64 records
    Many,
    // T2: an output of another length than 253
    Size,
    // T3: a total beyond 2^32 - 1
    Beyond,
}

// ---- sums of plain numbers

// One count more; a sum stops at 2^32.
fn capped(sum: u64, count: u32) -> u64
    ensures { result ≡ capped sum count }
{
    sum.saturating_add(u64::from(count)).min(BEYOND)
}

// Of no record.
#[tactic(auto, unfolding(crate::specs::Capped::none))]
pub fn none() -> Sum
    ensures { result ≡ none }
{
    Sum {
        sums: [0u64; COUNTS],
    }
}

// One record more, number by number.
pub fn plus(t: Sum, r: Record) -> Sum
    ensures { result ≡ plus_of t r }
{
    let mut sums = t.sums;
    for (i, count) in r.counts.iter().enumerate() {
        sums[i] = capped(sums[i], *count);
    }
    Sum { sums }
}

// Does each sum fit a word?
fn all_fit(t: Sum) -> bool
    ensures { result ≡ fits t.sums }
{
    t.sums.iter().all(|sum| *sum < BEYOND)
}

// The sums as words, where each fits one.
fn write(t: Sum, out: &mut [u32])
    requires { (length out.old ≡ 253) × (fits t.sums ≡ true) }
    ensures { out.new ≡ t.sums }
{
    for (i, sum) in t.sums.iter().enumerate() {
        out[i] = *sum as u32;
    }
}

// The report of so many records, whose sums are given.
#[tactic(auto, unfolding(crate::specs::Monthly::refusal))]
pub fn report(t: Sum, records: usize, out: &mut [u32]) -> Result<(), Unreported>
    ensures { (digit result ≡ refusal records (length out.old) t.sums) ×
        (out.new ≡ report_of (digit result) t.sums out.old) }
{
    if RECORDS < records {
        return Err(Unreported::Many);
    }
    if out.len() != COUNTS {
        return Err(Unreported::Size);
    }
    if !all_fit(t) {
        return Err(Unreported::Beyond);
    }
    write(t, out);
    Ok(())
}

// ---- over the slice of records

// So many records more, one after the other.
fn added(mut t: Sum, records: &[Record]) -> Sum
    ensures { result ≡ total_from t records.now }
{
    for r in records {
        t = plus(t, *r);
    }
    t
}

// The sums of all records.
#[tactic(auto, unfolding(crate::specs::Capped::total_of))]
fn total(records: &[Record]) -> Sum
    ensures { result ≡ total_of records.now }
{
    added(none(), records)
}

// The totals of a month in the output: of each task, by id, the states 0 to 6, then the codes. A refusal leaves the output as it was.
pub fn month(records: &[Record], out: &mut [u32]) -> Result<(), Unreported>
    ensures { Reported records.now (digit result) out.old out.new }
{
    let t = total(records);
    report(t, records.len(), out)
}
