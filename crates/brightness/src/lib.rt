// Brightness over the kernel: a task asks for a reading by rcv_msg (`receive`), and takes the one that its cell holds
// once it runs again (`resumed`).
//
// The kernel is used only through what its calls promise: `Step` of `call`, `Reads` of `cell` and `Runs` of `running`.
// A reader sees it in two places. crates.txt names, of the kernel, `rules`, `kernel_events` and `kernel_cells`, which
// promise, `kernel_steps`, which has the words of the promise, and besides `memory_columns` for the memory's size in the
// functions' types and `memory_picture` for `Memory`, `view_in` and `SoundIn`, in which a promise speaks of a memory. And
// `grep -rhoE 'Rattle\.[a-z_]+' crates/brightness/specs crates/brightness/proofs | sort -u` lists every crate that a
// statement or a proof here cites.
#![tactic(auto)]

ghost use Rattle.std.specs.Prelude.{◌≡◌};
ghost use Rattle.memory_picture.specs.Picture.{memory};
ghost use Rattle.brightness.specs.Readings.{task_word, Receives, Resumes};

use brightness_curve::{BadPoint, Curve, judge};
use brightness_light::{Light, News, Shown, heard, woken};
use kernel_cells::{cell, running};
use kernel_events::call;
use memory_columns::STATE_WORDS;

// The context of a task's call, the call, and the words that it ignores.
const TASK: i32 = 0;

const RCV_MSG: i32 = 21;

const UNUSED: i32 = 0;

// A task's id as a word of the kernel; 0, which names nobody, for a number that is no id.
fn task_word(task: u32) -> i32
    ensures { result ≡ task_word task }
{
    i32::try_from(task).unwrap_or(0)
}

// The running task asks the mailbox for a reading: it is taken at once, or the task waits. A bad curve is refused before the call.
pub fn receive(
    words: &mut [u32; STATE_WORDS],
    messages: &mut [u32; 256],
    curve: Curve,
    slots: &[u32],
    light: Light,
    mailbox: i32,
) -> Shown
    ensures { Receives curve slots.now light mailbox (memory words.old messages.old) result
        (memory words.new messages.new) }
{
    if let Err(BadPoint(point)) = judge(curve) {
        let news = News::BadCurve(point);
        return Shown { light, news };
    }
    let me = running(words, messages);
    let answer = call(words, messages, TASK, RCV_MSG, mailbox, UNUSED, UNUSED);
    heard(curve, slots, light, me, answer.code, answer.w1)
}

// Once the task that waits for a reading runs again: what its cell holds is taken, and the wait is over. As long as
// another task runs, nothing is.
pub fn resumed(
    words: &[u32; STATE_WORDS],
    messages: &[u32; 256],
    curve: Curve,
    slots: &[u32],
    light: Light,
) -> Shown
    ensures { Resumes curve slots.now light (memory words.now messages.now) result }
{
    if let Err(BadPoint(point)) = judge(curve) {
        let news = News::BadCurve(point);
        return Shown { light, news };
    }
    let me = running(words, messages);
    let read = cell(words, messages, task_word(me));
    woken(curve, slots, light, me, read.code, read.word)
}
