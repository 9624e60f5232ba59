// The bits of a word.
ghost use Rattle.std.specs.Prelude.{◌≡◌};
ghost use Rattle.memory_columns.specs.Bits.{remasked};

// The word with bit k set or not; a number that is no bit's changes nothing.
pub fn with_bit(mask: u32, k: u32, set: bool) -> u32
    ensures { result ≡ remasked mask k set }
{
    if u32::BITS <= k {
        return mask;
    }
    if set {
        return mask | (1 << k);
    }
    mask & !(1 << k)
}
