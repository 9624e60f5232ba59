// Counts on plain numbers: a table of 32 tasks by seven states, passed and returned by value, in which one cell is
// raised for each task after each event; and one count for each code. A full count stays.
#![tactic(auto)]

ghost use Rattle.std.specs.Prelude.{◌≡◌, ◌≤◌, min, get_or};
ghost use Rattle.run_tally.specs.Tables.{more, place_of, table_counted, codes_counted, FlatStates, Flat};

use run_month::{COUNTS, Record};

// The rows of the table, and the cells of a row.
pub const TASKS: usize = 32;

pub const STATES: usize = 7;

// The codes that come back, each with its place here: 0, 1, and the table's from -1 down.
pub const CODES: usize = 29;

pub const CODE: [i32; CODES] = [
    0, 1, -1, -2, -3, -4, -5, -6, -7, -8, -10, -11, -12, -20, -21, -22, -23, -24, -1830, -1831,
    -2097, -2100, -2101, -2104, -2110, -2629, -2889, -3413, -3414,
];

// One more.
fn more(n: u32) -> u32
    ensures { result ≡ more n }
{
    n.saturating_add(1)
}

// After an event: of each of the first n tasks the cell of its state is raised.
pub fn table_counted(
    table: [[u32; STATES]; TASKS],
    states: &[u32; TASKS],
    n: usize,
) -> [[u32; STATES]; TASKS]
    ensures { result ≡ table_counted (min n 32) (λ i. get_or states.now i 0) table }
{
    let m = n.min(TASKS);
    let mut t = table;
    for i in 0..m {
        let s = states[i] as usize;
        if s < STATES {
            t[i][s] = more(t[i][s]);
        }
    }
    t
}

// The place of a code, behind all places if it is none of these.
fn code_place(code: i32) -> usize
    ensures { result ≡ place_of code }
{
    CODE.iter().position(|c| *c == code).unwrap_or(CODES)
}

// After an event: its code's count is raised.
#[tactic(auto, unfolding(crate::specs::Tables::raised))]
pub fn codes_counted(codes: [u32; CODES], code: i32) -> [u32; CODES]
    ensures { result ≡ codes_counted codes code }
{
    let mut c = codes;
    let i = code_place(code);
    if i < CODES {
        c[i] = more(c[i]);
    }
    c
}

// The tasks by id with their states in a row; the numbers behind them are 0.
fn states_flat(table: [[u32; STATES]; TASKS]) -> [u32; COUNTS]
    ensures { FlatStates table result }
{
    let mut out = [0u32; COUNTS];
    for i in 0..STATES * TASKS {
        out[i] = table[i / STATES][i % STATES];
    }
    out
}

// All of them in a row: the codes stand behind the states.
pub fn flat(table: [[u32; STATES]; TASKS], codes: [u32; CODES]) -> Record
    ensures { Flat table codes result.counts }
{
    let mut out = states_flat(table);
    out[STATES * TASKS..].copy_from_slice(&codes);
    Record { counts: out }
}
