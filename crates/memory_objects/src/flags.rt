// Flags: whether a pattern serves a wait. (The pattern is a column.)
ghost use Rattle.std.specs.Prelude.{◌≡◌};
ghost use Rattle.rules.specs.Objects.{met};

// Whether a pattern meets what is asked of it.
pub fn meets(have: u32, want: u32, mode: u32) -> bool
    ensures { result ≡ met have want mode }
{
    if mode % 2 == 1 {
        return have & want != 0;
    }
    have & want == want
}
