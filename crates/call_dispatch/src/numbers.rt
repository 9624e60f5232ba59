// The calls, by the manual's names.
pub const STA_TSK: u32 = 1;

pub const EXT_TSK: u32 = 2;

pub const TER_TSK: u32 = 3;

pub const CHG_PRI: u32 = 4;

pub const ROT_RDQ: u32 = 5;

pub const REL_WAI: u32 = 6;

pub const SUS_TSK: u32 = 7;

pub const RSM_TSK: u32 = 8;

pub const SLP_TSK: u32 = 9;

pub const WAI_TSK: u32 = 10;

pub const WUP_TSK: u32 = 11;

pub const CAN_WUP: u32 = 12;

pub const SIG_SEM: u32 = 13;

pub const WAI_SEM: u32 = 14;

pub const PREQ_SEM: u32 = 15;

pub const SET_FLG: u32 = 16;

pub const CLR_FLG: u32 = 17;

pub const WAI_FLG: u32 = 18;

pub const POL_FLG: u32 = 19;

pub const SND_MSG: u32 = 20;

pub const RCV_MSG: u32 = 21;

pub const PRCV_MSG: u32 = 22;

pub const GET_BLK: u32 = 23;

pub const PGET_BLK: u32 = 24;

pub const REL_BLK: u32 = 25;

pub const GET_TID: u32 = 26;

pub const TSK_STS: u32 = 27;

pub const SEM_STS: u32 = 28;

pub const FLG_STS: u32 = 29;

pub const MBX_STS: u32 = 30;

pub const MPL_STS: u32 = 31;

pub const GET_TIM: u32 = 32;

pub const CRE_TSK: u32 = 33;

pub const DEL_TSK: u32 = 34;

pub const EXD_TSK: u32 = 35;

pub const SET_ABS: u32 = 36;

pub const SET_REL: u32 = 37;

pub const CAN_ALM: u32 = 38;

pub const ALM_STS: u32 = 39;
