// What a tick changes: each timed wait loses one, and the clock and the counter rise (`elapsed` is the three in this order).
#![tactic(auto)]

ghost use Rattle.std.specs.Prelude.{◌≡◌};
ghost use Rattle.memory_time.specs.Elapsing.{aged, aged_all, clocked, counted};

use memory_columns::{
    CLOCK_HIGH, CLOCK_LOW, COUNTER_NOW, COUNTER_SIZE, Column, MAX_TASKS, STATE_WORDS, TASKS,
    at_most,
};

// A tick less is left of task t, if any is.
fn age(words: &mut [u32; STATE_WORDS], t: u32)
    ensures { words.new ≡ aged t words.old }
{
    let n = Column::Ticks.get(words, t).saturating_sub(1);
    Column::Ticks.set(words, t, n);
}

// A tick less is left of each task. No state and no kind is asked, so that the loop is one over a column.
pub fn age_all(words: &mut [u32; STATE_WORDS])
    ensures { words.new ≡ aged_all words.old }
{
    let n = at_most(Column::System.get(words, TASKS), MAX_TASKS);
    for t in 1..n + 1 {
        age(words, t);
    }
}

// The clock rises by one; after 2^48 - 1 comes 0.
pub fn step_clock(words: &mut [u32; STATE_WORDS])
    ensures { words.new ≡ clocked words.old }
{
    let low = Column::System.get(words, CLOCK_LOW);
    if low < u32::MAX {
        Column::System.set(words, CLOCK_LOW, low + 1);
        return;
    }
    let high = Column::System.get(words, CLOCK_HIGH) % 65536;
    Column::System.set(words, CLOCK_LOW, 0);
    Column::System.set(words, CLOCK_HIGH, (high + 1) % 65536);
}

// The counter rises by one, and after m - 1 comes 0. Where there is no counter nothing is written.
pub fn step_counter(words: &mut [u32; STATE_WORDS])
    ensures { words.new ≡ counted words.old }
{
    let size = Column::Counter.get(words, COUNTER_SIZE);
    if size == 0 {
        return;
    }
    let n = Column::Counter.get(words, COUNTER_NOW);
    if n < size - 1 {
        Column::Counter.set(words, COUNTER_NOW, n + 1);
        return;
    }
    Column::Counter.set(words, COUNTER_NOW, 0);
}
