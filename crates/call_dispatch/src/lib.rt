// A call by its number, on a memory that is known to be sound (`Dispatches`): what is judged of any call, then the
// call's own rule. Each arm is a row of the paper's table.
#![tactic(auto)]

pub mod numbers;

ghost use Rattle.call_dispatch.specs.Dispatching.{answered, Dispatches};

use crate::numbers::ALM_STS;
use crate::numbers::CAN_ALM;
use crate::numbers::CAN_WUP;
use crate::numbers::CHG_PRI;
use crate::numbers::CLR_FLG;
use crate::numbers::CRE_TSK;
use crate::numbers::DEL_TSK;
use crate::numbers::EXD_TSK;
use crate::numbers::EXT_TSK;
use crate::numbers::FLG_STS;
use crate::numbers::GET_BLK;
use crate::numbers::GET_TID;
use crate::numbers::GET_TIM;
use crate::numbers::MBX_STS;
use crate::numbers::MPL_STS;
use crate::numbers::PGET_BLK;
use crate::numbers::POL_FLG;
use crate::numbers::PRCV_MSG;
use crate::numbers::PREQ_SEM;
use crate::numbers::RCV_MSG;
use crate::numbers::REL_BLK;
use crate::numbers::REL_WAI;
use crate::numbers::ROT_RDQ;
use crate::numbers::RSM_TSK;
use crate::numbers::SEM_STS;
use crate::numbers::SET_ABS;
use crate::numbers::SET_FLG;
use crate::numbers::SET_REL;
use crate::numbers::SIG_SEM;
use crate::numbers::SLP_TSK;
use crate::numbers::SND_MSG;
use crate::numbers::STA_TSK;
use crate::numbers::SUS_TSK;
use crate::numbers::TER_TSK;
use crate::numbers::TSK_STS;
use crate::numbers::WAI_FLG;
use crate::numbers::WAI_SEM;
use crate::numbers::WAI_TSK;
use crate::numbers::WUP_TSK;
use call_alarms::alm_sts;
use call_alarms::can_alm;
use call_alarms::set_abs;
use call_alarms::set_rel;
use call_flag_walk::set_flg;
use call_flags::clr_flg;
use call_flags::pol_flg;
use call_flags::wai_flg;
use call_judging::Caller;
use call_judging::Context;
use call_judging::Reason;
use call_judging::Target;
use call_judging::on_alarm;
use call_judging::on_flag;
use call_judging::on_message;
use call_judging::on_nothing;
use call_judging::on_object;
use call_judging::on_priority;
use call_judging::on_queue;
use call_judging::on_setting;
use call_judging::on_task;
use call_judging::on_time;
use call_mailboxes::prcv_msg;
use call_mailboxes::rcv_msg;
use call_mailboxes::snd_msg;
use call_pools::get_blk;
use call_pools::pget_blk;
use call_pools::rel_blk;
use call_semaphores::preq_sem;
use call_semaphores::sig_sem;
use call_semaphores::wai_sem;
use call_status::obj_sts;
use call_tasks::chg_pri;
use call_tasks::cre_tsk;
use call_tasks::del_tsk;
use call_tasks::exd_tsk;
use call_tasks::get_tid;
use call_tasks::get_tim;
use call_tasks::rel_wai;
use call_tasks::rot_rdq;
use call_tasks::rsm_tsk;
use call_tasks::sta_tsk;
use call_tasks::sus_tsk;
use call_tasks::ter_tsk;
use call_tasks::tsk_sts;
use call_wakeups::can_wup;
use call_wakeups::slp_tsk;
use call_wakeups::wai_tsk;
use call_wakeups::wup_tsk;
use call_words::Outcome;
use call_words::bits_of;
use call_words::codes::H_CALL;
use call_words::named;
use call_words::refuse;
use memory_columns::FLAG;
use memory_columns::FLAGS;
use memory_columns::MAILBOX;
use memory_columns::MAILBOXES;
use memory_columns::POOL;
use memory_columns::POOLS;
use memory_columns::SEMAPHORE;
use memory_columns::SEMAPHORES;
use memory_columns::STATE_WORDS;

// What is judged refuses the call, or its rule is done.
fn serve(
    words: &mut [u32; STATE_WORDS],
    messages: &mut [u32; 256],
    caller: Caller,
    n: u32,
    a: i32,
    b: i32,
    c: i32,
) -> Result<Outcome, Reason>
    ensures { Dispatches caller.handler caller.me n a b c (answered result) words.old messages.old words.new
        messages.new }
{
    let i = named(a);
    let j = named(b);
    let p = bits_of(b);
    match n {
        STA_TSK => {
            on_task(words, Context::Both, Target::Anyone, caller, i)?;
            Ok(sta_tsk(words, i))
        }
        EXT_TSK => {
            on_nothing(words, Context::TaskOnly, caller)?;
            Ok(ter_tsk(words, caller.me))
        }
        TER_TSK => {
            on_task(words, Context::TaskOnly, Target::Another, caller, i)?;
            Ok(ter_tsk(words, i))
        }
        CHG_PRI => {
            on_priority(words, Context::Both, Target::Alive, caller, i, j)?;
            Ok(chg_pri(words, i, j))
        }
        ROT_RDQ => {
            on_queue(words, caller, a)?;
            Ok(rot_rdq(words, i))
        }
        REL_WAI => {
            on_task(words, Context::Both, Target::Anyone, caller, i)?;
            Ok(rel_wai(words, i))
        }
        SUS_TSK => {
            on_task(words, Context::Both, Target::Another, caller, i)?;
            Ok(sus_tsk(words, i))
        }
        RSM_TSK => {
            on_task(words, Context::Both, Target::Anyone, caller, i)?;
            Ok(rsm_tsk(words, i))
        }
        SLP_TSK => {
            on_nothing(words, Context::TaskOnly, caller)?;
            Ok(slp_tsk(words, caller.me))
        }
        WAI_TSK => {
            on_time(words, caller, a)?;
            Ok(wai_tsk(words, caller.me, a))
        }
        WUP_TSK => {
            on_task(words, Context::Both, Target::Another, caller, i)?;
            Ok(wup_tsk(words, i))
        }
        CAN_WUP => {
            on_task(words, Context::Both, Target::Alive, caller, i)?;
            Ok(can_wup(words, i))
        }
        SIG_SEM => {
            on_object(words, SEMAPHORES, Context::Both, caller, i)?;
            Ok(sig_sem(words, i))
        }
        WAI_SEM => {
            on_object(words, SEMAPHORES, Context::TaskOnly, caller, i)?;
            Ok(wai_sem(words, caller.me, i))
        }
        PREQ_SEM => {
            on_object(words, SEMAPHORES, Context::Both, caller, i)?;
            Ok(preq_sem(words, i))
        }
        SET_FLG => {
            on_object(words, FLAGS, Context::Both, caller, i)?;
            Ok(set_flg(words, i, p))
        }
        CLR_FLG => {
            on_object(words, FLAGS, Context::Both, caller, i)?;
            Ok(clr_flg(words, i, p))
        }
        WAI_FLG => {
            on_flag(words, Context::TaskOnly, caller, i, p, c)?;
            Ok(wai_flg(words, caller.me, i, p, named(c)))
        }
        POL_FLG => {
            on_flag(words, Context::Both, caller, i, p, c)?;
            Ok(pol_flg(words, i, p, named(c)))
        }
        SND_MSG => {
            on_message(words, caller, i, j)?;
            Ok(snd_msg(words, messages, i, j))
        }
        RCV_MSG => {
            on_object(words, MAILBOXES, Context::TaskOnly, caller, i)?;
            Ok(rcv_msg(words, messages, caller.me, i))
        }
        PRCV_MSG => {
            on_object(words, MAILBOXES, Context::Both, caller, i)?;
            Ok(prcv_msg(words, messages, i))
        }
        GET_BLK => {
            on_object(words, POOLS, Context::TaskOnly, caller, i)?;
            Ok(get_blk(words, caller.me, i))
        }
        PGET_BLK => {
            on_object(words, POOLS, Context::Both, caller, i)?;
            Ok(pget_blk(words, i))
        }
        REL_BLK => {
            on_object(words, POOLS, Context::Both, caller, i)?;
            Ok(rel_blk(words, i, j))
        }
        GET_TID => {
            on_nothing(words, Context::Both, caller)?;
            Ok(get_tid(words))
        }
        TSK_STS => {
            on_task(words, Context::Both, Target::Anyone, caller, i)?;
            Ok(tsk_sts(words, i))
        }
        SEM_STS => {
            on_object(words, SEMAPHORES, Context::Both, caller, i)?;
            Ok(obj_sts(words, SEMAPHORE, i))
        }
        FLG_STS => {
            on_object(words, FLAGS, Context::Both, caller, i)?;
            Ok(obj_sts(words, FLAG, i))
        }
        MBX_STS => {
            on_object(words, MAILBOXES, Context::Both, caller, i)?;
            Ok(obj_sts(words, MAILBOX, i))
        }
        MPL_STS => {
            on_object(words, POOLS, Context::Both, caller, i)?;
            Ok(obj_sts(words, POOL, i))
        }
        GET_TIM => {
            on_nothing(words, Context::Both, caller)?;
            Ok(get_tim(words))
        }
        CRE_TSK => {
            on_priority(words, Context::TaskOnly, Target::Unnamed, caller, i, j)?;
            Ok(cre_tsk(words, i, j))
        }
        DEL_TSK => {
            on_task(words, Context::TaskOnly, Target::Anyone, caller, i)?;
            Ok(del_tsk(words, i))
        }
        EXD_TSK => {
            on_nothing(words, Context::TaskOnly, caller)?;
            Ok(exd_tsk(words, caller.me))
        }
        SET_ABS => {
            on_setting(words, caller, i, b, c)?;
            Ok(set_abs(words, i, j, named(c)))
        }
        SET_REL => {
            on_setting(words, caller, i, b, c)?;
            Ok(set_rel(words, i, j, named(c)))
        }
        CAN_ALM => {
            on_alarm(words, caller, i)?;
            Ok(can_alm(words, i))
        }
        ALM_STS => {
            on_alarm(words, caller, i)?;
            Ok(alm_sts(words, i))
        }
        _ => Ok(refuse(H_CALL)),
    }
}

pub fn dispatch(
    words: &mut [u32; STATE_WORDS],
    messages: &mut [u32; 256],
    caller: Caller,
    n: u32,
    a: i32,
    b: i32,
    c: i32,
) -> Outcome
    ensures { Dispatches caller.handler caller.me n a b c result words.old messages.old words.new
        messages.new }
{
    match serve(words, messages, caller, n, a, b, c) {
        Ok(outcome) => outcome,
        Err(reason) => refuse(reason.code()),
    }
}
