// Reading and writing as the programs do it, over std: in fixed memory, and no failure ends a program. A write that
// fails is passed over, and a read that fails is the end of the input.
#![tactic(auto)]

ghost use Rattle.std.specs.Prelude.{◌≤◌, length};

use std::fmt::Display;
use std::io::{Error, Print, Read, Write};

// Room for what std says of a failure: the system's words, which have at most 256 bytes, and their number.
const REASON: usize = 320;

// ---- writing

// Writes all of the bytes.
pub fn write_all(out: &impl Print, bytes: &[u8]) {
    let _ = out.write_all(bytes);
}

// Writes a number in decimal, of whatever size, signed or not.
pub fn print_decimal<N: Display + Drop>(out: &impl Print, n: N) {
    let _ = out.print(n);
}

// ---- reading

// Reads once, and gives how many bytes came; none at the end.
pub fn read_some(input: &mut impl Read, buf: &mut [u8]) -> usize
    ensures { result ≤ length buf.new }
{
    input.read(buf).unwrap_or(0)
}

// Reads until the buffer is full or the input ends, and gives how many bytes came.
pub fn read_full(input: &mut impl Read, buf: &mut [u8]) -> usize
    ensures { result ≤ length buf.new }
{
    let mut done: usize = 0;
    while done < buf.len() {
        let n = read_some(input, &mut buf[done..]);
        if n == 0 {
            return done;
        }
        done += n;
    }
    done
}

// ---- failures

// The system's words for a failure, and how many bytes they have. Behind them std writes " (os error N)".
fn reason(failure: Error, text: &mut [u8; REASON]) -> usize
    ensures { result ≤ length text.new }
{
    let mut rest = &mut text[..];
    let _ = write!(rest, "{failure}");
    let end = REASON.saturating_sub(rest.len());
    let number = text[..end].iter().rposition(|b| *b == b'(');
    number.map_or(end, |i| i.saturating_sub(1))
}

// Writes a line: what failed, as the caller names it, a colon and the system's words for the failure.
pub fn fail(err: &impl Print, what: &[u8], failure: Error) {
    let mut text = [0u8; REASON];
    let n = reason(failure, &mut text);
    write_all(err, what);
    write_all(err, b": ");
    write_all(err, &text[..n]);
    write_all(err, b"\n");
}
