// The text rules by name: their numbers in specs/Rules.antt.
pub const PLAIN: u8 = 0;

pub const IL: u8 = 1;

pub const CV: u8 = 2;

pub const RV: u8 = 3;

pub const MCR_READ: u8 = 4;

pub const OFFSET_SIGN: u8 = 5;

pub const LDC_READ: u8 = 6;

pub const I_OR_D: u8 = 7;

pub const A_OR_B: u8 = 8;

pub const TFV: u8 = 9;

pub const IDF: u8 = 10;

pub const IXF: u8 = 11;

pub const UFF: u8 = 12;

pub const OFF: u8 = 13;

pub const DZF: u8 = 14;

pub const IOF: u8 = 15;

pub const STEP_VALID: u8 = 16;

pub const EX: u8 = 17;

pub const WATCH_WN_R: u8 = 18;

pub const FNV: u8 = 19;

pub const PFV: u8 = 20;

pub const ISV: u8 = 21;

pub const SF: u8 = 22;

pub const AR: u8 = 23;

pub const FNP: u8 = 24;

pub const FNP_NOT_VALID: u8 = 25;

pub const WNR: u8 = 26;

pub const IDS: u8 = 27;

pub const ELS: u8 = 28;

pub const VFV: u8 = 29;

pub const IESB: u8 = 30;

pub const WNRV: u8 = 31;

pub const ISS_RES0: u8 = 32;

pub const CLASS_NAME: u8 = 33;

pub const TI: u8 = 34;

pub const AM: u8 = 35;

pub const LD64B_ISS: u8 = 36;

pub const DEBUG_STATUS: u8 = 37;

pub const FAULT_STATUS: u8 = 38;

pub const SET_TYPE: u8 = 39;

pub const SAS: u8 = 40;

pub const WU: u8 = 41;

pub const AET: u8 = 42;

pub const SERROR_STATUS: u8 = 43;

pub const WNR_NOT_VALID: u8 = 44;

pub const MESSAGE: u8 = 45;

pub const MESSAGE_END: u8 = 46;

pub const OWN_WORDS: u8 = 47;

pub const MSR_READ: u8 = 48;

pub const SYSTEM_REGISTER: u8 = 49;
