// The sets of rows that a layout can have: an ISS for each outcome of the tests that 01's conditions name, so that
// every
// set is that of one of them, and when a set fits a list of leaf values (specs/), which at most one does (proofs/).
#![tactic(auto)]

ghost use Rattle.layout_sets.specs.Outcomes.{kind_of, status_at};
ghost use Rattle.layout_sets.specs.Promises.{Index, IssRow, Outcome};
ghost use Rattle.promise.specs.Member.{member};
ghost use Rattle.std.specs.Prelude.{cond, [], ◌∷◌, ◌≡◌};

use records::{Row, kinds};
use texts::names as n;

// So many outcomes there are: bit 24, bit 10 and bit 7, and four kinds of status.
pub const SETS: usize = 32;

fn status_at(kind: usize) -> u64
    ensures { result ≡ status_at kind }
{
    match kind {
        1 => 0x10,
        2 => 0x11,
        3 => 0x12,
        _ => 0x00,
    }
}

// The ISS of an outcome; any index has one, and those from SETS on are the same again.
pub fn outcome(index: usize) -> u64
    ensures { Outcome index result }
{
    let status = status_at(index % 4);
    let bit_24 = (index / 16 % 2) as u64;
    let bit_10 = (index / 8 % 2) as u64;
    let bit_7 = (index / 4 % 2) as u64;
    bit_24 * 0x1000000 + bit_10 * 0x400 + bit_7 * 0x80 + status
}

// Of the statuses that conditions name, which this is: 0x10, 0x11, another that is external, or none.
#[tactic(auto, unfolding(crate::specs::Outcomes::kind_of))]
fn kind_of(status: u64) -> usize
    ensures { result ≡ kind_of status }
{
    match status {
        0x10 => 1,
        0x11 => 2,
        0x12..=0x17 => 3,
        _ => 0,
    }
}

fn weighed(bit: u64, weight: usize) -> usize
    ensures { result ≡ cond (member bit (1 ∷ [])) weight 0 }
{
    if bit == 1 { weight } else { 0 }
}

// The index of the outcome that numbers at the bits of the tests tell; the numbers may be any.
pub fn index_of(bit_24: u64, bit_10: u64, bit_7: u64, status: u64) -> usize
    ensures { Index (bit_24, bit_10, bit_7, status) result }
{
    weighed(bit_24, 16) + weighed(bit_10, 8) + weighed(bit_7, 4) + kind_of(status)
}

// ISS itself as a row, under the rule of its own text: the only leaf where it has no fields.
// Kept beside `engine::top::ISS`, no plainer as one: what is told of sets of rows rests on the tables and not on a
// decoder.
pub fn iss_row(rule: u8) -> Row
    ensures { IssRow rule result }
{
    Row {
        start: 0,
        width: 25,
        name: n::ISS,
        long: n::ISS_LONG,
        rule,
        kind: kinds::FREE,
    }
}
