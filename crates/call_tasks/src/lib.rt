// The calls on tasks and the clock: what is left of each once the common refusals are out of the way (crate
// `call_judging`). `i` is the task that the call names, `me` the caller. The contracts speak of an accepted memory,
// where what is named is there (`DoesOnWords`).
#![tactic(auto)]

ghost use Rattle.std.specs.Prelude.{pos};
ghost use Rattle.rules.specs.Tasks.{starting, ext_tsk, chg_pri, rot_rdq, rel_wai, sus_tsk, rsm_tsk, get_tid, tsk_sts};
ghost use Rattle.rules.specs.Tasks.{cre_tsk, del_tsk, exd_tsk};
ghost use Rattle.rules.specs.Time.{get_tim};
ghost use Rattle.call_words.specs.Doing.{Anything, DoesOnWords};
ghost use Rattle.call_words.specs.Naming.{NamesTask, NamesQueue};

use call_reading::{is_suspended, is_waiting, ready_head, state_number};
use call_words::codes::{E_NOSUS, E_NOWAI, H_EXIST, H_NODMT, H_SUS};
use call_words::{Outcome, done, gives, refuse, releases};
use memory_columns::{ABSENT, CELL_RLWAI, CLOCK_HIGH, CLOCK_LOW, Column, DORMANT, STATE_WORDS};
use memory_running::running_task;
use memory_tasks::{begin, create, delete, regrade, retire, rotate};
use memory_waits::{release, resume, suspend};

// 1 sta_tsk: the dormant task is made ready at its starting priority.
pub fn sta_tsk(words: &mut [u32; STATE_WORDS], i: u32) -> Outcome
    ensures { DoesOnWords (NamesTask i) (λ v. starting v.body i) result words.old words.new }
{
    if Column::Status.get(words, i) != DORMANT {
        return refuse(H_NODMT);
    }
    begin(words, i);
    done()
}

// 2 ext_tsk, 3 ter_tsk: the task goes dormant.
pub fn ter_tsk(words: &mut [u32; STATE_WORDS], i: u32) -> Outcome
    ensures { DoesOnWords Anything (λ v. ext_tsk i) result words.old words.new }
{
    retire(words, i);
    done()
}

// 33 cre_tsk: the task is made, dormant, with starting priority p.
pub fn cre_tsk(words: &mut [u32; STATE_WORDS], i: u32, p: u32) -> Outcome
    ensures { DoesOnWords (NamesTask i) (λ v. cre_tsk v (pos i) (pos p)) result words.old words.new }
{
    if Column::Status.get(words, i) != ABSENT {
        return refuse(H_EXIST);
    }
    create(words, i, p);
    done()
}

// 34 del_tsk: the dormant task is deleted.
pub fn del_tsk(words: &mut [u32; STATE_WORDS], i: u32) -> Outcome
    ensures { DoesOnWords (NamesTask i) (λ v. del_tsk v (pos i)) result words.old words.new }
{
    if Column::Status.get(words, i) != DORMANT {
        return refuse(H_NODMT);
    }
    delete(words, i);
    done()
}

// 35 exd_tsk: the caller ends and is deleted.
pub fn exd_tsk(words: &mut [u32; STATE_WORDS], me: u32) -> Outcome
    ensures { DoesOnWords Anything (λ v. exd_tsk me) result words.old words.new }
{
    delete(words, me);
    done()
}

// 4 chg_pri: the task gets priority p.
pub fn chg_pri(words: &mut [u32; STATE_WORDS], i: u32, p: u32) -> Outcome
    ensures { DoesOnWords Anything (λ v. chg_pri (pos i) (pos p)) result words.old words.new }
{
    regrade(words, i, p);
    done()
}

// 5 rot_rdq: the head of the ready queue of priority p goes last; 0 names the best nonempty queue.
pub fn rot_rdq(words: &mut [u32; STATE_WORDS], p: u32) -> Outcome
    ensures { DoesOnWords (NamesQueue p) (λ v. rot_rdq v (pos p)) result words.old words.new }
{
    let x = ready_head(words, p);
    if x != 0 {
        rotate(words, x);
    }
    done()
}

// 6 rel_wai: the wait of the task is broken off.
pub fn rel_wai(words: &mut [u32; STATE_WORDS], i: u32) -> Outcome
    ensures { DoesOnWords (NamesTask i) (λ v. rel_wai v (pos i)) result words.old words.new }
{
    if !is_waiting(words, i) {
        return refuse(E_NOWAI);
    }
    release(words, i, CELL_RLWAI, 0);
    releases(1)
}

// 7 sus_tsk: the task is suspended.
pub fn sus_tsk(words: &mut [u32; STATE_WORDS], i: u32) -> Outcome
    ensures { DoesOnWords (NamesTask i) (λ v. sus_tsk v (pos i)) result words.old words.new }
{
    if is_suspended(words, i) {
        return refuse(H_SUS);
    }
    suspend(words, i);
    done()
}

// 8 rsm_tsk: the task is resumed.
pub fn rsm_tsk(words: &mut [u32; STATE_WORDS], i: u32) -> Outcome
    ensures { DoesOnWords (NamesTask i) (λ v. rsm_tsk v (pos i)) result words.old words.new }
{
    if !is_suspended(words, i) {
        return refuse(E_NOSUS);
    }
    resume(words, i);
    done()
}

// 26 get_tid: the running task.
pub fn get_tid(words: &[u32; STATE_WORDS]) -> Outcome
    ensures { DoesOnWords Anything get_tid result words.now words.now }
{
    gives(running_task(words), 0)
}

// 27 tsk_sts: the state and the priority of the task.
pub fn tsk_sts(words: &[u32; STATE_WORDS], i: u32) -> Outcome
    ensures { DoesOnWords (NamesTask i) (λ v. tsk_sts v (pos i)) result words.now words.now }
{
    let s = state_number(words, i);
    let p = Column::Priority.get(words, i);
    gives(s, p)
}

// 32 get_tim: the clock, in two words.
pub fn get_tim(words: &[u32; STATE_WORDS]) -> Outcome
    ensures { DoesOnWords Anything get_tim result words.now words.now }
{
    let high = Column::System.get(words, CLOCK_HIGH);
    let low = Column::System.get(words, CLOCK_LOW);
    gives(high, low)
}
