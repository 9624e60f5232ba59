// What would the second setup have done in the run of the first? Reads two setups and one run from standard input, and
// writes what differs to standard output. The memory is fixed: no more bytes are read than decide, and the output has
// room for any text.
#![tactic(auto)]

ghost use Rattle.std.specs.Prelude.{◌≤◌, length};

use run_compare_reading::INPUT;
use run_compare_text::TEXT;
use std::io::Print;
use streams::{read_full, write_all};

fn show(out: &impl Print, text: &[u8], n: usize)
    requires { n ≤ length text.now }
{
    write_all(out, &text[..n]);
}

fn main(rt: HostRuntime) {
    let mut input = [0u8; INPUT];
    let n = read_full(&mut rt.stdin(), &mut input);
    let mut text = [0u8; TEXT];
    if let Ok(k) = run_compare::compare(&input[..n], &mut text) {
        show(&rt.stdout(), &text, k);
    }
}
