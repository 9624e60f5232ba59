// What a changed setup changes, for programs in C and Rust.
ghost use Rattle.okrozumba.specs.Compare.{ComparedTold};

use export_numbers::{Comparison, in_numbers};

// What the second setup of an input changes in its run.
#[unsafe(no_mangle)]
pub extern "C" fn okrozumba_compare(input: &[u8], text: &mut [u8]) -> Comparison
    ensures { ComparedTold input.now result.number result.length text.old text.new }
{
    in_numbers(run_compare::compare(input, text))
}
