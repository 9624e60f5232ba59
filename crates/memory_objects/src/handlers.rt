// The handlers that are open.
ghost use Rattle.std.specs.Prelude.{◌≡◌};
ghost use Rattle.memory_objects.specs.Moves.{nested};

use memory_columns::{Column, DEPTH, INTERRUPTED, STATE_WORDS};

// So many are open, and the outermost one interrupted that task.
pub fn nest(words: &mut [u32; STATE_WORDS], depth: u32, interrupted: u32)
    ensures { words.new ≡ nested depth interrupted words.old }
{
    Column::Handling.set(words, DEPTH, depth);
    Column::Handling.set(words, INTERRUPTED, interrupted);
}
