// The leaves of ISS by the number of a layout, and the values that each may have: those that its row allows and that
// leave the rows as they are.
#![tactic(auto)]

ghost use Rattle.std.specs.Prelude.{◌+◌, ◌<◌, ◌≤◌, ◌≡◌};
ghost use Rattle.leaf_values.specs.Leaves.{same_row};
ghost use Rattle.leaf_values.specs.Promises.{AnyMay, LeafRow, LeafCount, MayBe, RoomOf, SameLeaves, SameSets};
ghost use Rattle.leaf_values.specs.Values.{put_at};

use layout_sets::iss_row;
use layouts::layout_of;
use records::{Row, kinds as k};
use texts::{names as n, rules as r};

// What stands past the last leaf. Kept beside that of layouts, no plainer: a constant is spared, and a private one of
// another crate becomes public for it.
const PAD: Row = Row {
    start: 0,
    width: 0,
    name: n::NONE,
    long: n::NONE,
    rule: r::PLAIN,
    kind: k::FREE,
};

const ISS_WIDTH: u8 = 25;

// Fields up to this width are looked at whole.
const NARROW: u8 = 6;

// Kept as two parameters: each public function takes any number and ISS, and its promise is of both.
pub fn leaf_count(number: u8, iss: u64) -> usize
    ensures { LeafCount (number, iss) result }
{
    (layout_of(number, iss).count as usize).max(1)
}

pub fn leaf_row(number: u8, iss: u64, index: usize) -> Row
    ensures { LeafRow (number, iss, index) result }
{
    let layout = layout_of(number, iss);
    if index < layout.count as usize {
        return layout.rows[index];
    }
    // ISS itself, where it has no fields.
    if layout.count == 0 && index == 0 {
        return iss_row(layout.rule);
    }
    PAD
}

fn same_row(a: Row, b: Row) -> bool
    ensures { result ≡ same_row a b }
{
    a == b
}

// Of two layouts, each with an ISS (#114).
pub fn same_sets(number: u8, iss: u64, second: u8, other: u64) -> bool
    ensures { SameSets (number, iss, second, other) result }
{
    let count = leaf_count(number, iss);
    leaf_count(second, other) == count
        && (0..count).all(|i| same_row(leaf_row(number, iss, i), leaf_row(second, other, i)))
}

pub fn same_leaves(number: u8, iss: u64, other: u64) -> bool
    ensures { SameLeaves (number, iss, other) result }
{
    same_sets(number, iss, number, other)
}

pub fn room_of(width: u8) -> u64
    ensures { RoomOf width result }
{
    1 << width.min(NARROW)
}

// An ISS with another value in the field of a row.
fn put_at(iss: u64, row: Row, x: u64) -> u64
    requires { (row.start + row.width ≤ 25) × (x < 64) }
    ensures { result ≡ put_at iss row.start row.width x }
{
    let end = row.start + row.width;
    let low = records::field(iss, 0, row.start);
    let high = records::field(iss, end, ISS_WIDTH - end);
    low + (x << row.start) + (high << end)
}

// Whether a value may stand at the leaf of an index.
pub fn may_be(number: u8, iss: u64, index: usize, x: u64) -> bool
    ensures { MayBe (number, iss, index, x) result }
{
    let row = leaf_row(number, iss, index);
    x < room_of(row.width)
        && {
            let other = put_at(iss, row, x);
            row.meets(other) && same_leaves(number, other, iss)
        }
}

// Whether every value of the leaf's width may stand there.
pub fn any_may(number: u8, iss: u64, index: usize) -> bool
    ensures { AnyMay (number, iss, index) result }
{
    let row = leaf_row(number, iss, index);
    (0..room_of(row.width)).all(|x| may_be(number, iss, index, x))
}
