// The codes, by the papers' names.
pub const OK: i32 = 0;

pub const WAITS: i32 = 1;

pub const H_CALL: i32 = -1;

pub const H_PAR: i32 = -2;

pub const H_NODMT: i32 = -3;

pub const H_SUS: i32 = -4;

pub const H_POLL: i32 = -5;

pub const H_MSG: i32 = -6;

pub const H_NEST: i32 = -7;

pub const H_EXIST: i32 = -8;

pub const H_ILBLK: i32 = -10;

pub const H_USED: i32 = -11;

pub const H_IDLE: i32 = -12;

pub const E_TPRI: i32 = -1830;

pub const E_ILTIME: i32 = -1831;

pub const E_SELF: i32 = -2097;

pub const E_NOEXS: i32 = -2100;

pub const E_DMT: i32 = -2101;

pub const E_NOSUS: i32 = -2104;

pub const E_NOWAI: i32 = -2110;

pub const E_CTX: i32 = -2629;

pub const E_QOVR: i32 = -2889;

pub const E_TMOUT: i32 = -3413;

pub const E_RLWAI: i32 = -3414;
