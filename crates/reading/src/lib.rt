// What a reading of a value is (specs/), that a value is accepted exactly when it has one (proofs/), and the value given
// back from its records: the leaves shifted back and added up.
#![tactic(auto)]

ghost use Rattle.std.specs.Prelude.{◌≡◌, ◌%◌, ◌^◌, ◌≤◌, take, drop};
ghost use Rattle.reading.specs.Leaves.{shifted_back, added_up};
ghost use Rattle.reading.specs.Promises.{SumBack};
ghost use Rattle.records.specs.Sets.{set_room};

use records::{Record, Records};

// A field shifted back; one that does not lie within 64 bits adds nothing.
fn shifted_back(field: Record) -> u64
    ensures { result ≡ shifted_back field % 2 ^ 64 }
{
    if field.width == 0 {
        return 0;
    }
    if 64 < field.width {
        return 0;
    }
    if 64 - field.width < field.start {
        return 0;
    }
    field.value << field.start
}

// The fields from one index to another, from high bits to low.
fn sum_of(records: Records, from: usize, to: usize) -> u64
    requires { (from ≤ to) × (to ≤ set_room) }
    ensures { result ≡ added_up (drop from (take to records.items)) % 2 ^ 64 }
{
    let mut sum: u64 = 0;
    for i in from..to {
        sum = sum.wrapping_add(shifted_back(records.items[i]));
    }
    sum
}

// The leaves are the first four and those after the fifth, or the fifth where there are none after it. Total over any set.
pub fn sum_back(records: Records) -> u64
    ensures { SumBack records result }
{
    let count = records.count.min(Records::MAX);
    if count <= 5 {
        return sum_of(records, 0, count);
    }
    let top = sum_of(records, 0, 4);
    let own = sum_of(records, 5, count);
    top.wrapping_add(own)
}
