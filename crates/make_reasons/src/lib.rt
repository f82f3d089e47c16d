// Why no value was made, in words: which numbers of leaves a class can have, and which number is too wide, by its place (#106).
#![tactic(auto)]

ghost use Rattle.std.specs.Prelude.{◌+◌, ◌^◌, ◌<◌, leb, length, ◌≡◌};
ghost use Rattle.buffer.specs.Appending.{Appends};
ghost use Rattle.make_reasons.specs.Promises.{NoLayoutPut, WidePut};
ghost use Rattle.make_reasons.specs.Reasons.{class_part, count_part, counts_part, first_wide, has_count, has_fewer, wide_at, wide_leaf, wider};

use buffer::{put_bytes, put_code};
use digits::{Base, put_number};
use layout_sets::{SETS, outcome};
use leaf_values::{leaf_count, leaf_row};
use make_lines::{put_leaf_count, put_width};
use records::Row;

// No set has more leaves.
const MOST: u64 = 14;

// Whether a set of the layout has so many leaves; or, below, fewer. No plainer as one function: one call each.
fn has_count(number: u8, n: u64) -> bool
    ensures { result ≡ has_count number n }
{
    (0..SETS).any(|k| leaf_count(number, outcome(k)) as u64 == n)
}

fn has_fewer(number: u8, n: u64) -> bool
    ensures { result ≡ has_fewer number n }
{
    (0..SETS).any(|k| (leaf_count(number, outcome(k)) as u64) < n)
}

fn put_count(buf: &mut [u8], at: usize, number: u8, n: u64) -> usize
    ensures { Appends (count_part number n) (at, buf.old) (result, buf.new) }
{
    if !has_count(number, n) {
        return at;
    }
    if has_fewer(number, n) {
        let next = put_bytes(buf, at, b" or ");
        return put_number(buf, next, Base::Decimal, n);
    }
    let next = put_bytes(buf, at, b" ");
    put_number(buf, next, Base::Decimal, n)
}

fn put_counts(buf: &mut [u8], at: usize, number: u8) -> usize
    ensures { Appends (counts_part number) (at, buf.old) (result, buf.new) }
{
    let mut next = at;
    for n in 0..=MOST {
        next = put_count(buf, next, number, n);
    }
    next
}

fn put_class(buf: &mut [u8], at: usize, class: u64) -> usize
    ensures { Appends (class_part class) (at, buf.old) (result, buf.new) }
{
    let next = put_bytes(buf, at, b" of class 0x");
    put_number(buf, next, Base::Hex, class)
}

// 21: so many leaves have no set; or some sets have so many, and none fits the values. Kept as a count: `NoLayoutPut`
// tells of any.
pub fn put_no_layout(buf: &mut [u8], at: usize, class: u64, number: u8, count: usize) -> usize
    ensures { NoLayoutPut (buf.old, at, class, number, count) (result, buf.new) }
{
    if has_count(number, count as u64) {
        let mut next = put_bytes(buf, at, b"no set of ");
        next = put_leaf_count(buf, next, count as u64);
        next = put_class(buf, next, class);
        return put_bytes(buf, next, b" has these values where they decide");
    }
    let mut next = put_bytes(buf, at, b"the number of leaves");
    next = put_class(buf, next, class);
    next = put_bytes(buf, next, b" is");
    next = put_counts(buf, next, number);
    next = put_bytes(buf, next, b", not ");
    put_number(buf, next, Base::Decimal, count as u64)
}

fn is_wide(x: u64, width: u8) -> bool
    requires { width < 64 }
    ensures { result ≡ leb (2 ^ width) x }
{
    1 << width <= x
}

// What follows a name: the number, and the width that it passes.
fn put_wider(buf: &mut [u8], at: usize, x: u64, width: u8) -> usize
    ensures { Appends (wider x width) (at, buf.old) (result, buf.new) }
{
    let mut next = put_bytes(buf, at, b", 0x");
    next = put_number(buf, next, Base::Hex, x);
    next = put_bytes(buf, next, b", is wider than ");
    put_width(buf, next, width)
}

fn put_wide_leaf(buf: &mut [u8], at: usize, index: usize, row: Row, x: u64) -> usize
    requires { index + 1 < 2 ^ 64 }
    ensures { Appends (wide_leaf index row x) (at, buf.old) (result, buf.new) }
{
    let mut next = put_bytes(buf, at, b"leaf ");
    next = put_number(buf, next, Base::Decimal, (index + 1) as u64);
    next = put_bytes(buf, next, b", ");
    next = put_code(buf, next, row.name as u16);
    put_wider(buf, next, x, row.width)
}

// The index of the first leaf that is too wide, or how many there are: kept as a number, which `first_wide` of specs/ is.
// Kept, number and ISS side by side, here and in `put_wide_at`: no plainer, `put_too_wide` would make a struct of them
// for one call of each.
fn first_wide(number: u8, iss: u64, leaves: &[u64]) -> usize
    ensures { result ≡ first_wide number iss leaves.now 0 (length leaves.now) }
{
    for (i, leaf) in leaves.iter().enumerate() {
        if is_wide(*leaf, leaf_row(number, iss, i).width) {
            return i;
        }
    }
    leaves.len()
}

fn put_wide_at(
    buf: &mut [u8],
    at: usize,
    number: u8,
    iss: u64,
    leaves: &[u64],
    index: usize,
) -> usize
    ensures { Appends (wide_at number iss leaves.now index) (at, buf.old) (result, buf.new) }
{
    if leaves.len() <= index {
        return at;
    }
    let row = leaf_row(number, iss, index);
    put_wide_leaf(buf, at, index, row, leaves[index])
}

// 22: the first of IL, ISS2 and the leaves that is too wide.
pub fn put_too_wide(
    buf: &mut [u8],
    at: usize,
    il: u64,
    iss2: u64,
    number: u8,
    iss: u64,
    leaves: &[u64],
) -> usize
    ensures { WidePut (buf.old, at, il, iss2, number, iss, leaves.now) (result, buf.new) }
{
    if 1 < il {
        let next = put_bytes(buf, at, b"IL");
        return put_wider(buf, next, il, 1);
    }
    if 31 < iss2 {
        let next = put_bytes(buf, at, b"ISS2");
        return put_wider(buf, next, iss2, 5);
    }
    let index = first_wide(number, iss, leaves);
    put_wide_at(buf, at, number, iss, leaves, index)
}
