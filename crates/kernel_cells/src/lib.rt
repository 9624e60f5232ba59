// Reading a task's answer cell, the states of all tasks and the running task of a memory that may be damaged.
#![tactic(auto)]

ghost use Rattle.std.specs.Prelude.{◌≡◌, ◌≤◌, length};
ghost use Rattle.memory_picture.specs.Picture.{memory};
ghost use Rattle.call_reading.specs.Reading.{number_at};
ghost use Rattle.kernel_cells.specs.Promises as Promises;
ghost use Rattle.kernel_cells.specs.Promises.{Reads, Runs, Listed, Lists};

use call_judging::is_outside;
use call_reading::state_number;
use call_words::codes::{E_NOEXS, E_RLWAI, E_TMOUT, OK};
use call_words::named;
use check_damage::{H_NUMBER, judged};
use check_state::accepts;
use memory_columns::{ABSENT, CELL_OK, CELL_RLWAI, CELL_TMOUT, Column, STATE_WORDS, TASKS};
use memory_running::running_task;

// Places for the states of tasks: the most tasks of a setup.
pub const TASK_PLACES: usize = 32;

// An answer cell: code and word.
#[repr(C)]
#[derive(Clone, Copy)]
pub struct Reading {
    pub code: i32,
    pub word: u32,
}

// The code that a cell keeps by a small number.
#[tactic(auto, unfolding(rules::specs::Codes::number, memory_picture::specs::Picture::code_of))]
fn code_of(kept: u32) -> i32
    ensures { result ≡ Promises.kept kept }
{
    match kept {
        CELL_OK => OK,
        CELL_TMOUT => E_TMOUT,
        CELL_RLWAI => E_RLWAI,
        _ => H_NUMBER,
    }
}

// The cell of a task: the code of what is broken if the state is damaged, then E_NOEXS for a bad id or a task that is
// not there, each with word 0.
pub fn cell(words: &[u32; STATE_WORDS], messages: &[u32; 256], task: i32) -> Reading
    ensures { Reads (memory words.now messages.now) task result.code result.word }
{
    if let Err(broken) = judged(words, messages) {
        return Reading {
            code: broken.code,
            word: 0,
        };
    }
    let t = named(task);
    if is_outside(t, Column::System.get(words, TASKS)) || Column::Status.get(words, t) == ABSENT {
        return Reading {
            code: E_NOEXS,
            word: 0,
        };
    }
    Reading {
        code: code_of(Column::Code.get(words, t)),
        word: Column::Word.get(words, t),
    }
}

// The running task, 0 if there is none or the state is damaged.
pub fn running(words: &[u32; STATE_WORDS], messages: &[u32; 256]) -> u32
    ensures { Runs (memory words.now messages.now) result }
{
    if accepts(words, messages) {
        running_task(words)
    } else {
        0
    }
}

// ---- the states of all tasks

// 0, or the code of what is broken; and how many tasks there are.
#[repr(C)]
#[derive(Clone, Copy)]
pub struct Shown {
    pub code: i32,
    pub tasks: u32,
}

// The states of tasks 1 to n, in order.
fn list_states(words: &[u32; STATE_WORDS], n: u32, out: &mut [u32])
    requires { n ≤ length out.old }
    ensures { Listed (number_at words.now) n out.old out.new }
{
    for i in 0..n {
        out[i as usize] = state_number(words, i + 1);
    }
}

// The state of each task, as tsk_sts shows it, 6 for a task that is not there. On a damaged state: the code of what is broken, no task, and
// the places as they were.
pub fn states(
    words: &[u32; STATE_WORDS],
    messages: &[u32; 256],
    out: &mut [u32; TASK_PLACES],
) -> Shown
    ensures { Lists (memory words.now messages.now) result.code result.tasks
        out.old out.new }
{
    match judged(words, messages) {
        Ok(()) => {
            let n = Column::System.get(words, TASKS);
            list_states(words, n, out);
            Shown { code: OK, tasks: n }
        }
        Err(broken) => Shown {
            code: broken.code,
            tasks: 0,
        },
    }
}
