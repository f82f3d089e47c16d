// Strict reading (#110): the ordinary decoder's answer, or what the manual's stricter view refuses of a value that the ordinary decoder accepts.
#![tactic(auto)]

ghost use Rattle.std.specs.Prelude.{◌≡◌};
ghost use Rattle.refusals.specs.Refusals.{checked};
ghost use Rattle.strict.specs.Code.{fails_as, is_of_as, refusal_as};
ghost use Rattle.strict.specs.Promises.{DecodedBy, DecodedStrictly, ProfileAsked};
ghost use Rattle.strict.specs.Strict.{first_refusal, record_refusal};

use esr::Answer;
use records::{Mark, Record, Records};
use refusals::{Reason, Refusal};
use texts::names as n;

// How values are read: as the Rust reads them, or strictly, on a core without nested virtualisation or with it.
#[derive(Clone, Copy)]
pub enum Profile {
    Ordinary,
    Strict,
    Nested,
}

// What a refusal tells besides its number: nothing, the field's number, or that and the field's bits.
#[derive(Clone, Copy)]
enum Tells {
    Nothing,
    Number,
    Field,
}

// A line of the strict list: the row by its name, bits and mark; the numbers that are allowed, as bits; why another is refused, and what the refusal
// tells; whether nested virtualisation excuses it.
#[derive(Clone, Copy)]
struct Line {
    allowed: u64,
    name: u16,
    start: u8,
    width: u8,
    mark: Mark,
    reason: Reason,
    tells: Tells,
    excused: bool,
}

// The lines, from high bits to low.
const LINES: [Line; 4] = [
    Line {
        allowed: 0b1101,
        name: n::WU as u16,
        start: 16,
        width: 2,
        mark: Mark::Free,
        reason: Reason::InvalidWu,
        tells: Tells::Nothing,
        excused: false,
    },
    Line {
        allowed: 0b1,
        name: n::VNCR as u16,
        start: 13,
        width: 1,
        mark: Mark::Free,
        reason: Reason::InvalidVncr,
        tells: Tells::Nothing,
        excused: true,
    },
    Line {
        allowed: 0b1,
        name: n::RES0 as u16,
        start: 11,
        width: 2,
        mark: Mark::Unchecked,
        reason: Reason::InvalidRes0,
        tells: Tells::Field,
        excused: false,
    },
    Line {
        allowed: 0b1111,
        name: n::AM as u16,
        start: 1,
        width: 3,
        mark: Mark::Coded,
        reason: Reason::InvalidAm,
        tells: Tells::Number,
        excused: false,
    },
];

impl Line {
    // Whether a record is of this line's row.
    fn is_of(self, field: Record) -> bool
        ensures { result ≡ is_of_as self field }
    {
        field.start == self.start
            && field.width == self.width
            && field.name == self.name
            && field.mark == self.mark
    }

    // Whether a record is one that this line asks of, and is not as it asks.
    fn fails(self, field: Record, nested: bool) -> bool
        ensures { result ≡ fails_as nested field self }
    {
        self.is_of(field) && !(nested && self.excused) && !lookup::has(self.allowed, field.value)
    }

    fn refusal(self, value: u64) -> Refusal
        ensures { result ≡ refusal_as self value }
    {
        match self.tells {
            Tells::Nothing => Refusal::carrying(self.reason, 0),
            Tells::Number => Refusal::carrying(self.reason, value),
            Tells::Field => Refusal {
                carries: value,
                start: self.start,
                width: self.width,
                reason: self.reason,
            },
        }
    }
}

// What the first line refuses that a record is not as asked by.
// Kept, no plainer: a line's refusal is told whole, and the caller asks `check` of it.
fn record_refusal(field: Record, nested: bool) -> Refusal
    ensures { result ≡ record_refusal nested field }
{
    for line in &LINES {
        if line.fails(field, nested) {
            return line.refusal(field.value);
        }
    }
    Refusal::NONE
}

// What the first record refuses, from high bits to low.
fn check_records(records: &[Record], nested: bool) -> Result<(), Refusal>
    ensures { result ≡ checked (first_refusal nested records.now) }
{
    for field in records {
        record_refusal(*field, nested).check()?;
    }
    Ok(())
}

pub fn decode_strict(esr: u64, nested: bool) -> Answer
    ensures { DecodedStrictly (esr, nested) result }
{
    let answer = esr::decode(esr);
    if answer.refusal.is_refused() {
        return answer;
    }
    let records = &answer.records;
    match check_records(&records.items[..records.count], nested) {
        Ok(()) => answer,
        Err(refusal) => Answer {
            refusal,
            records: Records::empty(),
        },
    }
}

pub fn decode_by(profile: Profile, esr: u64) -> Answer
    ensures { DecodedBy (profile, esr) result }
{
    match profile {
        Profile::Ordinary => esr::decode(esr),
        Profile::Strict => decode_strict(esr, false),
        Profile::Nested => decode_strict(esr, true),
    }
}

// What a program's option asks for: `--strict`, or `--nested` where the core has nested virtualisation too; without either values are read as the Rust reads them.
pub fn profile_asked(option: &[u8]) -> Profile
    ensures { ProfileAsked option.now result }
{
    if words::is_word(option, b"--strict") {
        return Profile::Strict;
    }
    if words::is_word(option, b"--nested") {
        return Profile::Nested;
    }
    Profile::Ordinary
}
