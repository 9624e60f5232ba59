// The acts on tasks that do not wait. Each is an act of the rules (specs/Acts.antt of `rules`), done on the memory.
#![tactic(auto)]

ghost use Rattle.std.specs.Prelude.{◌≡◌};
ghost use Rattle.memory_tasks.specs.Moves.{celled, rotated, readied, started, retired, ranked, created, deleted, regraded};

use memory_columns::{ABSENT, CELL_OK, Column, DORMANT, READY, STATE_WORDS};
use memory_queues::{leave, push, ready_anchor};

// Writes the cell of task t.
pub fn write_cell(words: &mut [u32; STATE_WORDS], t: u32, code: u32, word: u32)
    ensures { words.new ≡ celled t code word words.old }
{
    Column::Code.set(words, t, code);
    Column::Word.set(words, t, word);
}

// Task t goes last in the ready queue of its priority.
pub fn rotate(words: &mut [u32; STATE_WORDS], t: u32)
    ensures { words.new ≡ rotated t words.old }
{
    let anchor = ready_anchor(Column::Priority.get(words, t));
    leave(words, t);
    push(words, anchor, t);
}

// Task t is made ready.
pub fn make_ready(words: &mut [u32; STATE_WORDS], t: u32)
    ensures { words.new ≡ readied t words.old }
{
    Column::Status.set(words, t, READY);
    rotate(words, t);
}

// Task t is started: ready at its starting priority, cell 0 and 0.
pub fn begin(words: &mut [u32; STATE_WORDS], t: u32)
    ensures { words.new ≡ started t words.old }
{
    let p = Column::Start.get(words, t);
    Column::Priority.set(words, t, p);
    write_cell(words, t, CELL_OK, 0);
    make_ready(words, t);
}

// Task t goes dormant, with its starting priority, no wake-ups and no ticks left.
pub fn retire(words: &mut [u32; STATE_WORDS], t: u32)
    ensures { words.new ≡ retired t words.old }
{
    let p = Column::Start.get(words, t);
    Column::Status.set(words, t, DORMANT);
    Column::Priority.set(words, t, p);
    Column::Wakeups.set(words, t, 0);
    Column::Ticks.set(words, t, 0);
    leave(words, t);
}

// Task t has that status, priority p, also as its starting priority, and no wake-ups.
fn write_task(words: &mut [u32; STATE_WORDS], t: u32, status: u32, p: u32)
    ensures { words.new ≡ ranked t status p words.old }
{
    Column::Status.set(words, t, status);
    Column::Priority.set(words, t, p);
    Column::Start.set(words, t, p);
    Column::Wakeups.set(words, t, 0);
}

// Task t is made: dormant, with starting priority p.
pub fn create(words: &mut [u32; STATE_WORDS], t: u32, p: u32)
    ensures { words.new ≡ created t p words.old }
{
    write_task(words, t, DORMANT, p);
    leave(words, t);
}

// Task t is deleted: it leaves its queue and has no priority, no wake-ups, cell 0 and 0.
pub fn delete(words: &mut [u32; STATE_WORDS], t: u32)
    ensures { words.new ≡ deleted t words.old }
{
    write_task(words, t, ABSENT, 0);
    write_cell(words, t, CELL_OK, 0);
    leave(words, t);
}

// Task t gets priority p; a ready one goes last in its queue.
pub fn regrade(words: &mut [u32; STATE_WORDS], t: u32, p: u32)
    ensures { words.new ≡ regraded t p words.old }
{
    let s = Column::Status.get(words, t);
    Column::Priority.set(words, t, p);
    if s == READY {
        rotate(words, t);
    }
}
