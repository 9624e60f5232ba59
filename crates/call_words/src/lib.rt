// The words of a call: what a signed word names, and what comes back: the codes by name, two words and how many tasks were released.
#![tactic(auto)]

pub mod codes;

ghost use Rattle.std.specs.Prelude.{◌≡◌, pos, nat_abs};
ghost use Rattle.rules.specs.Events.{nat, bits};
ghost use Rattle.call_words.specs.Outcomes.{outcome};

// The number that a word names, 0 for a negative one.
pub fn named(a: i32) -> u32
    ensures { result ≡ nat a }
{
    a.max(0).cast_unsigned()
}

// The unsigned number with the same bits.
pub fn bits_of(b: i32) -> u32
    ensures { result ≡ bits b }
{
    b.cast_unsigned()
}

// A word without its sign.
pub fn unsigned(z: i32) -> u32
    ensures { result ≡ nat_abs z }
{
    z.unsigned_abs()
}

// ---- what a call answers

#[derive(Clone, Copy)]
pub struct Outcome {
    pub code: i32,
    pub w1: u32,
    pub w2: u32,
    pub released: u32,
}

// A refusal: words 0, nobody released.
pub fn refuse(code: i32) -> Outcome
    ensures { result ≡ outcome code 0 0 0 }
{
    Outcome {
        code,
        w1: 0,
        w2: 0,
        released: 0,
    }
}

// Code 0 with two words.
pub fn gives(w1: u32, w2: u32) -> Outcome
    ensures { result ≡ outcome (pos 0) w1 w2 0 }
{
    Outcome {
        code: codes::OK,
        w1,
        w2,
        released: 0,
    }
}

// Code 0 with no words.
pub fn done() -> Outcome
    ensures { result ≡ outcome (pos 0) 0 0 0 }
{
    gives(0, 0)
}

// Code 0 with no words, and n tasks released.
pub fn releases(n: u32) -> Outcome
    ensures { result ≡ outcome (pos 0) 0 0 n }
{
    reports(0, n)
}

// Code 0 with one word, and n tasks released.
pub fn reports(w1: u32, n: u32) -> Outcome
    ensures { result ≡ outcome (pos 0) w1 0 n }
{
    Outcome {
        code: codes::OK,
        w1,
        w2: 0,
        released: n,
    }
}

// The caller must wait.
pub fn waits() -> Outcome
    ensures { result ≡ outcome (pos 1) 0 0 0 }
{
    refuse(codes::WAITS)
}
