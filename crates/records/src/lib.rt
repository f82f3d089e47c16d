// The vocabulary of a reading: fields of a value, rows, records and sets of them.
#![tactic(auto)]

ghost use Rattle.records.specs.Promises.{AsBit, At, Emptied, Field, Got, Marked, Meets, Number, Refused};
ghost use Rattle.records.specs.Kinds.{reason_at};
ghost use Rattle.records.specs.Sets.{no_record};
ghost use Rattle.records.specs.Subjects.{key_of};
ghost use Rattle.records.specs.Subjects as subjects;
ghost use Rattle.std.specs.Prelude.{◌≡◌};

use refusals::{Reason, Refusal};
use texts::rules;

pub mod kinds;

// Kept, a start and a width: it is public and promises its answer of any two (`Field`).
pub fn field(v: u64, start: u8, width: u8) -> u64
    ensures { Field (v, start, width) result }
{
    if 64 <= start {
        return 0;
    }
    let down = v >> start;
    if 64 <= width {
        return down;
    }
    down & ((1 << width) - 1)
}

// The Rust asserts that the field is one bit wide; here it is by its row.
pub fn as_bit(v: u64, position: u8) -> bool
    ensures { AsBit (v, position) result }
{
    field(v, position, 1) == 1
}

// What is known of a record's field: that nothing is asked of it, that it is on its list, that it is reserved and 0, or reserved and anything.
#[derive(Clone, Copy, PartialEq, Eq)]
pub enum Mark {
    Free,
    Coded,
    Checked,
    Unchecked,
}

impl Mark {
    pub fn number(self) -> u8
        ensures { Number self result }
    {
        match self {
            Mark::Free => 0,
            Mark::Coded => 1,
            Mark::Checked => 2,
            Mark::Unchecked => 3,
        }
    }

    // The mark of any kind. The numbers of the marks are those of the cases, so that this costs an instruction for each
    // record and no lookup.
    pub fn of_kind(kind: u8) -> Self
        ensures { Marked kind result }
    {
        match kind % kinds::MARKS {
            kinds::FREE => Mark::Free,
            kinds::CODED => Mark::Coded,
            kinds::CHECKED => Mark::Checked,
            _ => Mark::Unchecked,
        }
    }
}

// The reason of a coded kind, by its index.
// Kept, None for any other index: `refusal` takes any kind, and promises that reason of one past the list (`Refused`).
fn reason_at(index: u8) -> Reason
    ensures { result ≡ reason_at index }
{
    match index {
        0 => Reason::InvalidEc,
        1 => Reason::InvalidFsc,
        2 => Reason::InvalidSet,
        3 => Reason::InvalidAet,
        4 => Reason::InvalidAm,
        5 => Reason::InvalidLd64bIss,
        _ => Reason::None,
    }
}

// The key of the system register that an ISS of MSR and MRS names: Op0 on top, then Op1, CRn, CRm, Op2.
// Each field is below two to its width, so that no product and no sum passes 16 bits.
#[tactic(auto, using(crate::proofs::Laws::field_lt), unfolding(crate::specs::Subjects::key_of))]
fn key(iss: u64) -> u16
    ensures { result ≡ key_of iss }
{
    let op0 = field(iss, 20, 2);
    let op1 = field(iss, 14, 3);
    let crn = field(iss, 10, 4);
    let crm = field(iss, 1, 4);
    let op2 = field(iss, 17, 3);
    (op0 * 0x4000 + op1 * 0x800 + crn * 0x80 + crm * 0x8 + op2) as u16
}

// The number by which a rule speaks of a field: its value, or the place of its register.
fn subject(rule: u8, value: u64) -> u64
    ensures { result ≡ subjects.subject rule value }
{
    if rule != rules::SYSTEM_REGISTER {
        return value;
    }
    registers::place(key(value)) as u64
}

// A row of a layout; a kind is one of `kinds`. Six bytes with no gap, so that rows are copied as one block.
// Kept as numbers: document 01 names the rule number in a row, and `get`, `meets` and `refusal` take any kind (`Meets`).
#[derive(Clone, Copy, PartialEq, Eq)]
pub struct Row {
    pub start: u8,
    pub width: u8,
    pub name: u8,
    pub long: u8,
    pub rule: u8,
    pub kind: u8,
}

// A row's field of a value, as the Rust's FieldInfo. Sixteen bytes with no gap, in the order of the C record, so that both are copied as one.
#[derive(Clone, Copy, PartialEq, Eq)]
pub struct Record {
    pub value: u64,
    pub name: u16,
    pub text: u16,
    pub long: u8,
    pub start: u8,
    pub width: u8,
    pub mark: Mark,
}

impl Row {
    // Records are made here alone.
    pub fn get(self, v: u64) -> Record
        ensures { Got (self, v) result }
    {
        let value = field(v, self.start, self.width);
        Record {
            value,
            name: self.name as u16,
            text: lookup::text_code(self.rule, subject(self.rule, value)),
            long: self.long,
            start: self.start,
            width: self.width,
            mark: Mark::of_kind(self.kind),
        }
    }

    // Whether the row's field of a value is as the row asks: what the Rust's check_res0 and describe look at.
    pub fn meets(self, v: u64) -> bool
        ensures { Meets (self, v) result }
    {
        let value = field(v, self.start, self.width);
        match Mark::of_kind(self.kind) {
            Mark::Free | Mark::Unchecked => true,
            Mark::Coded => lookup::describes(self.rule, value),
            Mark::Checked => value == 0,
        }
    }

    // What the row answers where its field is not as it asks: the reason of its kind, carrying its field. A reserved field is named too. A row
    // that asks nothing has no reason.
    pub fn refusal(self, v: u64) -> Refusal
        ensures { Refused (self, v) result }
    {
        let carries = field(v, self.start, self.width);
        match Mark::of_kind(self.kind) {
            Mark::Free | Mark::Unchecked => Refusal::carrying(Reason::None, carries),
            Mark::Coded => Refusal::carrying(reason_at(self.kind / kinds::MARKS), carries),
            Mark::Checked => Refusal {
                carries,
                start: self.start,
                width: self.width,
                reason: Reason::InvalidRes0,
            },
        }
    }
}

// What stands in a slot of a set that holds no record.
fn no_record() -> Record
    ensures { result ≡ no_record }
{
    Record {
        value: 0,
        name: 0,
        text: 0,
        long: 0,
        start: 0,
        width: 0,
        mark: Mark::Free,
    }
}

// Records in order, and slots after them that hold the empty record.
// Kept: document 01 names this form, a flat set of 19 records with a count; nothing is allocated.
#[derive(Clone, Copy)]
pub struct Records {
    pub items: [Record; Records::MAX],
    pub count: usize,
}

impl Records {
    pub const ISS_MAX: usize = 14;

    pub const MAX: usize = 19;

    pub fn empty() -> Self
        ensures { Emptied tt result }
    {
        let none = no_record();
        Self {
            items: [none; Records::MAX],
            count: 0,
        }
    }

    // Kept, no Option: it is public and promises the empty record past the count (`At`), as a slot of the set holds it.
    pub fn at(self, index: usize) -> Record
        ensures { At (self, index) result }
    {
        if self.count <= index || Records::MAX <= index {
            return no_record();
        }
        self.items[index]
    }
}
