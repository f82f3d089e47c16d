// What stands in the pool: the length of a text by its code, and how a rule describes a value.
#![tactic(auto)]

ghost use Rattle.lookup.specs.Promises.{LengthIn, LengthOf, Describes, Has, TextCode};
ghost use Rattle.lookup.specs.Descriptions.{numbers_of};
ghost use Rattle.std.specs.Prelude.{◌≡◌};

use texts::{pool, rules};

// 0 for a code past the last start, and no Option: kept, `LengthIn` says so.
pub fn length_in(starts: &[u16], code: u16) -> u16
    ensures { LengthIn (starts.now, code) result }
{
    let at = code as usize;
    let Some(to) = starts.get(at + 1) else {
        return 0;
    };
    to.saturating_sub(starts[at])
}

pub fn length_of(code: u16) -> u16
    ensures { LengthOf code result }
{
    let starts = texts::text_starts();
    length_in(starts, code)
}

// A rule in numbers: the values that it has a text for, as bits, and its first code, that of the value 0.
#[derive(Clone, Copy)]
struct Descriptions(u64, u16);

// Rules 1 to 31 are of one bit and have two codes each, from BIT_FIRST on. A match, and no table: a table would be built at each call.
fn in_numbers(rule: u8) -> Descriptions
    ensures { result ≡ numbers_of rule }
{
    if rule == rules::PLAIN {
        return Descriptions(0, pool::BIT_FIRST);
    }
    if rule < rules::ISS_RES0 {
        return Descriptions(3, pool::BIT_FIRST + 2 * (rule as u16 - 1));
    }
    match rule {
        rules::ISS_RES0 => Descriptions(1, pool::ISS_RES0_FIRST),
        rules::CLASS_NAME => Descriptions(0x113F_9177_13E2_74FB, pool::CLASS_NAME_FIRST),
        rules::TI => Descriptions(0xF, pool::TI_FIRST),
        rules::AM => Descriptions(0x5F, pool::AM_FIRST),
        rules::LD64B_ISS => Descriptions(0x7, pool::LD64B_ISS_FIRST),
        rules::DEBUG_STATUS => Descriptions(0x4_0000_0000, pool::DEBUG_STATUS_FIRST),
        rules::FAULT_STATUS => Descriptions(0x33_1FFE_F9FF_FFFF, pool::FAULT_STATUS_FIRST),
        rules::SET_TYPE => Descriptions(0xD, pool::SET_TYPE_FIRST),
        rules::SAS => Descriptions(0xF, pool::SAS_FIRST),
        rules::WU => Descriptions(0xF, pool::WU_FIRST),
        rules::AET => Descriptions(0x4F, pool::AET_FIRST),
        rules::SERROR_STATUS => Descriptions(0x2_0001, pool::SERROR_STATUS_FIRST),
        rules::WNR_NOT_VALID => Descriptions(0x1, pool::WNR_NOT_VALID_FIRST),
        rules::MESSAGE => Descriptions(0xFE, pool::MESSAGE_FIRST),
        rules::MESSAGE_END => Descriptions(0x82, pool::MESSAGE_END_FIRST),
        rules::OWN_WORDS => Descriptions(0x3F91_C700, pool::OWN_WORDS_FIRST),
        rules::MSR_READ => Descriptions(0x3, pool::MSR_READ_FIRST),
        rules::SYSTEM_REGISTER => Descriptions(0xFFFF_FFFF_FFFF_FFFF, pool::SYSTEM_REGISTER_FIRST),
        _ => Descriptions(0, texts::COUNT as u16),
    }
}

// Whether a number is one of those that bits tell.
pub fn has(values: u64, value: u64) -> bool
    ensures { Has (values, value) result }
{
    value < 64 && (values >> value) & 1 == 1
}

pub fn describes(rule: u8, value: u64) -> bool
    ensures { Describes (rule, value) result }
{
    let s = in_numbers(rule);
    has(s.0, value)
}

// 0 for no text, and no Option: kept, `TextCode` says so; document 01 names codes into the pool.
pub fn text_code(rule: u8, value: u64) -> u16
    ensures { TextCode (rule, value) result }
{
    let s = in_numbers(rule);
    if has(s.0, value) {
        return s.1 + value as u16;
    }
    0
}
