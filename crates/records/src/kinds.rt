// Kept as numbers: `Row::get`, `meets` and `refusal` take any kind.
// The kinds of rows by name. A kind is the number of its mark and, for a coded one, four times the index of its reason in the list of specs/Kinds.antt.
pub const MARKS: u8 = 4;

pub const FREE: u8 = 0;

pub const CODED: u8 = 1;

pub const CHECKED: u8 = 2;

pub const UNCHECKED: u8 = 3;

pub const EC: u8 = CODED;

pub const FSC: u8 = EC + MARKS;

pub const SET: u8 = FSC + MARKS;

pub const AET: u8 = SET + MARKS;

pub const AM: u8 = AET + MARKS;

pub const LD64B_ISS: u8 = AM + MARKS;
