// The bytes of a setup up to a section: words, entries and counts with their entries, judged without keeping them. The contracts
// cite the rules' own reader, for any bytes and any offset.
#![tactic(auto)]

ghost use Rattle.std.specs.Prelude.{◌≡◌, ℕ, ◌+◌, ◌<◌, leb, length, get_or, replicate};
ghost use Rattle.rules.specs.Setup.{S3, word_at, to, section, read_word, read_entry, read_entries, read_section};
ghost use Rattle.setup_sections.specs.Judging.{onward, coded, digit_of, judged_of, told_as, told_by, ranges_of};

// ---- words

// The byte `k` behind an offset, 0 past the end, also where their sum is no offset. Not by `get` of a sum that saturates: where a word is
// known to be whole, its bytes are read without a test.
fn byte(bytes: &[u8], at: usize, k: usize) -> u32
    ensures { (result ≡ get_or bytes.now (at + k) 0) × (result < 256) }
{
    let end = bytes.len();
    if end <= at || end - at <= k {
        0
    } else {
        u32::from(bytes[at + k])
    }
}

// The word at any offset, with zeros past the end.
pub fn word(bytes: &[u8], at: usize) -> u32
    ensures { result ≡ word_at bytes.now at }
{
    let a = byte(bytes, at, 0);
    let b = byte(bytes, at, 1);
    let c = byte(bytes, at, 2);
    let d = byte(bytes, at, 3);
    a + 256 * b + 65536 * c + 16777216 * d
}

// Does a whole word stand at an offset?
fn has_word(bytes: &[u8], at: usize) -> bool
    ensures { result ≡ leb (at + 4) (length bytes.now) }
{
    let end = bytes.len();
    4 <= end && at <= end - 4
}

// `n` bytes further, at most to the end: an offset cannot overflow.
pub fn onward(bytes: &[u8], at: usize, n: usize) -> usize
    ensures { result ≡ onward bytes.now at n }
{
    at.saturating_add(n).min(bytes.len())
}

// ---- sections

// S1 the bytes end before a needed word is whole; S2 a count outside its range; S3 an entry outside its range; S4 bytes left over.
#[derive(Clone, Copy, PartialEq, Eq)]
pub enum Fault {
    S1,
    S2,
    S3,
    S4,
}

// The digit of its name.
impl From<Fault> for u32 {
    ghost from_gives = { λ f d. d ≡ digit_of f };

    fn from(f: Fault) -> u32 {
        match f {
            Fault::S1 => 1,
            Fault::S2 => 2,
            Fault::S3 => 3,
            Fault::S4 => 4,
        }
    }
}

// What names a fault: one of the four, or a number, whatever number it is.
pub trait FaultName: Copy {
    ghost use Rattle.setup_sections.specs.declared.Fault.{Fault};

    // Of one of the four.
    ghost name: { Fault → Self };

    ghost digit: { Self → ℕ };

    fn name(fault: Fault) -> Self
        ensures { result ≡ name fault };

    fn digit(self) -> u32
        ensures { result ≡ digit self };
}

impl FaultName for Fault {
    ghost name = { λ f. f };

    ghost digit = { digit_of };

    fn name(fault: Fault) -> Fault {
        fault
    }

    fn digit(self) -> u32 {
        u32::from(self)
    }
}

impl FaultName for u32 {
    ghost name = { digit_of };

    ghost digit = { λ d. d };

    fn name(fault: Fault) -> u32 {
        u32::from(fault)
    }

    fn digit(self) -> u32 {
        self
    }
}

// The first fault and its place. What is judged without one is told by the offset behind what was read.
#[derive(Clone, Copy)]
pub struct Refusal<F = Fault> {
    pub fault: F,
    pub place: usize,
}

// From the least to the most.
#[derive(Clone, Copy)]
pub struct Span {
    pub least: u32,
    pub most: u32,
}

impl Span {
    pub fn new(least: u32, most: u32) -> Span
        ensures least { result.least ≡ least }
        ensures most { result.most ≡ most }
    {
        Span { least, most }
    }
}

// The words of an entry: how many, the range of the first, and that of each further one.
#[derive(Clone, Copy)]
pub struct Shape {
    pub words: u32,
    pub first: Span,
    pub others: Span,
}

// The word at an offset is whole, or has the error `short`; and it lies within its range, or has the error `outside`. A caller's errors may
// be of any type.
pub fn word_within<E: Drop>(
    bytes: &[u8],
    r: Span,
    at: usize,
    short: E,
    outside: E,
) -> Result<usize, E>
    ensures { result ≡ told_by short outside (read_word bytes.now (to r.least r.most) S3 at) }
{
    if !has_word(bytes, at) {
        return Err(short);
    }
    let w = word(bytes, at);
    if w < r.least || r.most < w {
        return Err(outside);
    }
    Ok(at + 4)
}

// The word at an offset is whole, or has the fault S1; and it lies within its range, or has the fault that is given.
pub fn judge_word<F: FaultName>(
    bytes: &[u8],
    r: Span,
    fault: F,
    at: usize,
) -> Result<usize, Refusal<F>>
    ensures { result ≡ told_as (λ f. F.name (coded f)) fault (read_word bytes.now (to r.least r.most) S3 at) }
{
    let short = Refusal {
        fault: F::name(Fault::S1),
        place: at,
    };
    word_within(bytes, r, at, short, Refusal { fault, place: at })
}

// `n` words in a range.
fn judge_words(bytes: &[u8], r: Span, n: u32, from: usize) -> Result<usize, Refusal>
    ensures { result ≡ judged_of (read_entry bytes.now (replicate n (to r.least r.most)) from) }
{
    let mut at = from;
    for _ in 0..n {
        at = judge_word(bytes, r, Fault::S3, at)?;
    }
    Ok(at)
}

// One entry.
fn judge_entry(bytes: &[u8], e: Shape, at: usize) -> Result<usize, Refusal>
    ensures { result ≡ judged_of (read_entry bytes.now (ranges_of e) at) }
{
    if e.words == 0 {
        return Ok(at);
    }
    let next = judge_word(bytes, e.first, Fault::S3, at)?;
    judge_words(bytes, e.others, e.words - 1, next)
}

// `n` entries.
pub fn judge_entries(bytes: &[u8], e: Shape, n: u32, from: usize) -> Result<usize, Refusal>
    ensures { result ≡ judged_of (read_entries bytes.now (ranges_of e) n from) }
{
    let mut at = from;
    for _ in 0..n {
        at = judge_entry(bytes, e, at)?;
    }
    Ok(at)
}

// A count in a range, and an entry for each that it counts.
pub fn judge_section(bytes: &[u8], count: Span, e: Shape, at: usize) -> Result<usize, Refusal>
    ensures { result ≡ judged_of (read_section bytes.now (section (to count.least count.most) (ranges_of e)) at) }
{
    let next = judge_word(bytes, count, Fault::S2, at)?;
    judge_entries(bytes, e, word(bytes, at), next)
}
