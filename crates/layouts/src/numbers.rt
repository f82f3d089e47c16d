// The numbers of the layouts: their indices in the list of crates/tables/specs/Tables.antt.
// Kept as numbers: document 01 asks for a table of layout numbers, and `layout_of` takes any number (`LayoutOf`).
pub const RES0: u8 = 0;

pub const WF: u8 = 1;

pub const MCR: u8 = 2;

pub const MCRR: u8 = 3;

pub const LDC: u8 = 4;

pub const SVE: u8 = 5;

pub const LD64B: u8 = 6;

pub const BTI: u8 = 7;

pub const PAUTH: u8 = 8;

pub const HVC: u8 = 9;

pub const BRK: u8 = 10;

pub const FP: u8 = 11;

pub const BREAKPOINT: u8 = 12;

pub const SOFTWARE_STEP: u8 = 13;

pub const WATCHPOINT: u8 = 14;

pub const INSTRUCTION_ABORT: u8 = 15;

pub const DATA_ABORT: u8 = 16;

pub const SERROR: u8 = 17;

pub const MSR: u8 = 18;
