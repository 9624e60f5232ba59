// What changes of an alarm. (Its task, and whether it starts or wakes it, are the setup's.)
ghost use Rattle.std.specs.Prelude.{◌≡◌};
ghost use Rattle.memory_objects.specs.Moves.{alarmed};

use memory_columns::{Column, STATE_WORDS};

// Alarm k keeps that code (without its sign), is due at one less than `due` (0: it is idle) and has that period.
pub fn set_alarm(words: &mut [u32; STATE_WORDS], k: u32, code: u32, due: u32, period: u32)
    ensures { words.new ≡ alarmed k code due period words.old }
{
    Column::AlarmCode.set(words, k, code);
    Column::AlarmDue.set(words, k, due);
    Column::AlarmPeriod.set(words, k, period);
}
