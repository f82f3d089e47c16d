// The refusals of 01 and 02: the reason, its number, and what a refusal carries. Nothing lies below but what a promise is.
#![tactic(auto)]

ghost use Rattle.refusals.specs.Promises.{Carrying, Checked, IsRefused, Number, ValueNumber, ValuePlace};

// The reasons, in the order of their numbers; None where nothing is refused.
// Kept, the reason None: a public `Refusal` may refuse nothing, in the field of an `Answer`, which document 01 names,
// and where a reply is told one (`IsRefused`, `Carrying`, `put_refusal`, `put_records_reply`).
#[derive(Clone, Copy, PartialEq, Eq)]
pub enum Reason {
    None,
    InvalidRes0,
    InvalidEc,
    InvalidFsc,
    InvalidSet,
    InvalidAet,
    InvalidAm,
    InvalidLd64bIss,
    Empty,
    InvalidDigit,
    PosOverflow,
    ShortBuffer,
    BadField,
    BadIndex,
    ShortEntry,
    BadLength,
    BadVersion,
    BadTable,
    LongRun,
    LongBlock,
    NoLayout,
    WideLeaf,
    BadRest,
    InvalidWu,
    InvalidVncr,
    ShortSheet,
    BadSheetVersion,
    LongPhrase,
    CodeNotRising,
}

impl Reason {
    // The only match on a reason.
    pub fn number(self) -> u8
        ensures { Number self result }
    {
        match self {
            Reason::None => 0,
            Reason::InvalidRes0 => 1,
            Reason::InvalidEc => 2,
            Reason::InvalidFsc => 3,
            Reason::InvalidSet => 4,
            Reason::InvalidAet => 5,
            Reason::InvalidAm => 6,
            Reason::InvalidLd64bIss => 7,
            Reason::Empty => 8,
            Reason::InvalidDigit => 9,
            Reason::PosOverflow => 10,
            Reason::ShortBuffer => 11,
            Reason::BadField => 12,
            Reason::BadIndex => 13,
            Reason::ShortEntry => 14,
            Reason::BadLength => 15,
            Reason::BadVersion => 16,
            Reason::BadTable => 18,
            Reason::LongRun => 19,
            Reason::LongBlock => 20,
            Reason::NoLayout => 21,
            Reason::WideLeaf => 22,
            Reason::BadRest => 23,
            Reason::InvalidWu => 24,
            Reason::InvalidVncr => 25,
            Reason::ShortSheet => 26,
            Reason::BadSheetVersion => 27,
            Reason::LongPhrase => 28,
            Reason::CodeNotRising => 29,
        }
    }
}

// A reason and what it carries: 0 where 01 names nothing. InvalidRes0 also names its field, by the bit where it starts and its width; of every other
// refusal both are 0 (#105).
#[derive(Clone, Copy, PartialEq, Eq)]
pub struct Refusal {
    pub carries: u64,
    pub start: u8,
    pub width: u8,
    pub reason: Reason,
}

impl Refusal {
    pub const NONE: Refusal = Refusal {
        carries: 0,
        start: 0,
        width: 0,
        reason: Reason::None,
    };

    pub fn carrying(reason: Reason, carries: u64) -> Self
        ensures { Carrying (reason, carries) result }
    {
        Refusal {
            carries,
            start: 0,
            width: 0,
            reason,
        }
    }

    pub fn number(self) -> u8
        ensures { Number self.reason result }
    {
        self.reason.number()
    }

    pub fn is_refused(self) -> bool
        ensures { IsRefused self result }
    {
        self.reason != Reason::None
    }

    // Itself as an error, which `?` hands on; nothing where nothing is refused.
    pub fn check(self) -> Result<(), Refusal>
        ensures { Checked self result }
    {
        if self.is_refused() {
            return Err(self);
        }
        Ok(())
    }
}

// The numbers that a value can be refused by, in their order: 01's 1 to 7, and 24 and 25 of strict reading (#110).
const NUMBERS_IN_ORDER: [u8; VALUE_NUMBERS] = [1, 2, 3, 4, 5, 6, 7, 24, 25];

pub const VALUE_NUMBERS: usize = 9;

// The number at a place of these; 0 past the last.
// Kept, no Option: it is public and promises the 0 (`ValueNumber`); the label of a survey's line is told by it.
#[tactic(auto, using(std::proofs::lemmas::Option::get_or_from_slice_get), unfolding(crate::specs::Values::value_numbers))]
pub fn value_number(place: usize) -> u8
    ensures { ValueNumber place result }
{
    NUMBERS_IN_ORDER.get(place).copied().unwrap_or(0)
}

// The place of a number; None where a value cannot be refused by it.
#[tactic(auto, unfolding(crate::specs::Values::value_place, crate::specs::Values::value_numbers))]
pub fn value_place(number: u8) -> Option<usize>
    ensures { ValuePlace number result }
{
    NUMBERS_IN_ORDER.iter().position(|n| *n == number)
}
