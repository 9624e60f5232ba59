// Text in a lent output, line by line. Each function writes from a place on, the lines from the front, and gives the
// place behind what it wrote. Behind the output's end nothing is written and the places are counted all the same: so
// the length of a line is known before a byte of it is written.
#![tactic(auto)]

ghost use Rattle.std.specs.Prelude.{◌≡◌, [], ◌∷◌, ◌+◌, ◌≤◌, min, pos, set};
ghost use Rattle.run_text.specs.Lines.{decimal, signed, start_line, event_line, refusal, count_line, longest_line};
ghost use Rattle.run_text.specs.Output.{laid, Wrote};

// No line is longer.
pub const LINE: usize = 67;

fn put(text: &mut [u8], at: usize, byte: u8)
    ensures { text.new ≡ set text.old at byte }
{
    if at < text.len() {
        text[at] = byte;
    }
}

// Bytes from a place on.
pub fn lay(text: &mut [u8], at: usize, bytes: &[u8])
    ensures { text.new ≡ laid bytes.now at text.old }
{
    if text.len() <= at {
        return;
    }
    let n = bytes.len().min(text.len() - at);
    text[at..at + n].copy_from_slice(&bytes[..n]);
}

fn letters(text: &mut [u8], word: &[u8]) -> usize
    ensures { Wrote word.now 0 text.old text.new result }
{
    lay(text, 0, word);
    word.len()
}

// In decimal.
fn number(text: &mut [u8], at: usize, n: usize) -> usize
    requires { at ≤ 1000 }
    ensures { Wrote (decimal n) at text.old text.new result }
{
    if n < 10 {
        put(text, at, b'0' + n as u8);
        return at + 1;
    }
    let last = number(text, at, n / 10);
    put(text, last, b'0' + (n % 10) as u8);
    last + 1
}

// A space and a number.
fn field(text: &mut [u8], at: usize, n: usize) -> usize
    requires { at ≤ 900 }
    ensures { Wrote (32 ∷ decimal n) at text.old text.new result }
{
    put(text, at, b' ');
    number(text, at + 1, n)
}

// A space and a code.
fn code_field(text: &mut [u8], at: usize, code: i32) -> usize
    requires { at ≤ 900 }
    ensures { (Wrote (32 ∷ signed code) at text.old text.new result) × (result ≤ at + 12) }
{
    let size = code.unsigned_abs() as usize;
    if 0 <= code {
        return field(text, at, size);
    }
    put(text, at, b' ');
    put(text, at + 1, b'-');
    number(text, at + 2, size)
}

fn end_line(text: &mut [u8], at: usize) -> usize
    requires { at ≤ 900 }
    ensures { Wrote (10 ∷ []) at text.old text.new result }
{
    put(text, at, b'\n');
    at + 1
}

// The line of the task that runs first.
pub fn start_line(text: &mut [u8], runs: u32) -> usize
    ensures { (Wrote (start_line runs) 0 text.old text.new result) × (result ≤ longest_line) }
{
    let mut at = letters(text, b"start");
    at = field(text, at, runs as usize);
    end_line(text, at)
}

// The line of the event `i`, whose answer is given.
pub fn event_line(
    text: &mut [u8],
    i: u32,
    code: i32,
    w1: u32,
    w2: u32,
    runs: u32,
    released: u32,
) -> usize
    ensures { (Wrote (event_line i (code ∷ pos w1 ∷ pos w2 ∷ pos runs ∷ pos released ∷ [])) 0 text.old
        text.new result) × (result ≤ longest_line) }
{
    let mut k = number(text, 0, i as usize);
    k = code_field(text, k, code);
    k = field(text, k, w1 as usize);
    k = field(text, k, w2 as usize);
    k = field(text, k, runs as usize);
    k = field(text, k, released as usize);
    end_line(text, k)
}

// The line of a refusal.
pub fn refusal_line(text: &mut [u8], fault: u32, place: usize) -> usize
    ensures { (Wrote (refusal fault place) 0 text.old text.new result) × (result ≤ longest_line) }
{
    let mut at = letters(text, b"refused");
    at = field(text, at, fault as usize);
    at = field(text, at, place);
    end_line(text, at)
}

// The line of a number alone.
pub fn count_line(text: &mut [u8], n: u32) -> usize
    ensures { (Wrote (count_line n) 0 text.old text.new result) × (result ≤ longest_line) }
{
    let at = number(text, 0, n as usize);
    end_line(text, at)
}
