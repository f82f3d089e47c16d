// What decides the rows of a value: whether a field is the class or one that a condition of the class's table names, and
// whether two values have the same rows (#114).
#![tactic(auto)]

ghost use Rattle.named_fields.specs.Promises.{IsNamed, SameRows};

use layouts::numbers;

// The bits of a field.
#[derive(Clone, Copy, PartialEq, Eq)]
struct Bits {
    start: u8,
    width: u8,
}

const CLASS: Bits = Bits {
    start: 26,
    width: 6,
};

const BIT_24: Bits = Bits {
    start: 24,
    width: 1,
};

const BIT_10: Bits = Bits {
    start: 10,
    width: 1,
};

const BIT_7: Bits = Bits { start: 7, width: 1 };

const STATUS: Bits = Bits { start: 0, width: 6 };

const ISS_WIDTH: u8 = 25;

// Kept, start and width side by side: `IsNamed` tells of both.
pub fn is_named(class: u64, start: u8, width: u8) -> bool
    ensures { IsNamed (class, start, width) result }
{
    let bits = Bits { start, width };
    let is_class = bits == CLASS;
    let bit_24 = bits == BIT_24;
    let status = bits == STATUS;
    let bit_10 = bits == BIT_10;
    let bit_7 = bits == BIT_7;
    let is_asked = match esr::layout_number(class) {
        numbers::SOFTWARE_STEP => bit_24,
        numbers::INSTRUCTION_ABORT => status,
        numbers::DATA_ABORT => bit_24 | status | bit_10,
        numbers::SERROR => bit_24 | status | bit_7,
        _ => false,
    };
    is_class | is_asked
}

// Whether the tables give both values the same rows, with the same text rules.
pub fn same_rows(first: u64, second: u64) -> bool
    ensures { SameRows (first, second) result }
{
    let number = esr::layout_number(records::field(first, CLASS.start, CLASS.width));
    let other = esr::layout_number(records::field(second, CLASS.start, CLASS.width));
    let iss = records::field(first, 0, ISS_WIDTH);
    let own = records::field(second, 0, ISS_WIDTH);
    let layout = layouts::layout_of(number, iss);
    let next = layouts::layout_of(other, own);
    layout.rule == next.rule && leaf_values::same_sets(number, iss, other, own)
}
