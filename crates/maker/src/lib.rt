// The maker: the value of a class, an IL, an ISS2 and a list of leaf values for ISS from high to low, or why there is
// none (#106).
#![tactic(auto)]

ghost use Rattle.std.specs.Prelude.{◌≡◌, ◌%◌, ◌^◌, ◌<◌};
ghost use Rattle.layout_sets.specs.Fitting.{answers, is_row, leaf_at};
ghost use Rattle.layout_sets.specs.Outcomes.{index_of};
ghost use Rattle.maker.specs.Laid.{Bounded, FitsAt, Laid, Low, tells_at};
ghost use Rattle.maker.specs.Making.{in_widths, judged, made_at, packed};
ghost use Rattle.maker.specs.Promises.{Fitting, Makes};

use layout_sets::SETS;
use records::{Records, Row};
use refusals::{Reason, Refusal};

// The rows of the leaves of ISS from high bits to low, and how many there are.
// Kept: there is no heap, so the rows are handed out in an array that has room for the most.
#[derive(Clone, Copy)]
struct LeafRows {
    rows: [Row; Records::ISS_MAX],
    count: usize,
}

// The rows of the leaves at an outcome of the conditions: those of the layout, or ISS itself where it has none.
fn leaf_rows(number: u8, index: usize) -> LeafRows
    ensures { Laid number index result }
{
    let layout = layouts::layout_of(number, layout_sets::outcome(index));
    let mut rows = layout.rows;
    if layout.count == 0 {
        rows[0] = layout_sets::iss_row(layout.rule);
        return LeafRows { rows, count: 1 };
    }
    LeafRows {
        rows,
        count: layout.count as usize,
    }
}

// Whether a row is that of these bits. Kept, start and width side by side, here and in `leaf_at`: no plainer, a struct
// of them would be made anew in each of the four calls.
fn is_row(row: Row, start: u8, width: u8) -> bool
    ensures { result ≡ is_row start width row }
{
    row.start == start && row.width == width
}

// The leaf at the row of these bits; 0 where there is no such row.
fn leaf_at(rows: &[Row], leaves: &[u64], start: u8, width: u8) -> u64
    ensures { result ≡ leaf_at rows.now leaves.now start width }
{
    for (row, leaf) in rows.iter().zip(leaves) {
        if is_row(*row, start, width) {
            return *leaf;
        }
    }
    0
}

// The index of the outcome that the leaves tell at these rows.
fn index_told(rows: &[Row], leaves: &[u64]) -> usize
    ensures { result ≡ index_of (answers rows.now leaves.now) }
{
    let bit_24 = leaf_at(rows, leaves, 24, 1);
    let bit_10 = leaf_at(rows, leaves, 10, 1);
    let bit_7 = leaf_at(rows, leaves, 7, 1);
    let status = leaf_at(rows, leaves, 0, 6);
    layout_sets::index_of(bit_24, bit_10, bit_7, status)
}

// Whether the rows at an outcome are as many as the leaves, and the leaves tell this outcome at them.
fn tells(number: u8, index: usize, leaves: &[u64]) -> bool
    ensures { result ≡ tells_at number index leaves.now }
{
    let set = leaf_rows(number, index);
    let rows = &set.rows[..set.count];
    rows.len() == leaves.len() && index_told(rows, leaves) == index
}

// The index of the outcome whose rows fit the leaves.
fn index_fitting(number: u8, leaves: &[u64]) -> Option<usize>
    ensures { FitsAt number leaves.now result }
{
    (0..SETS).find(|&index| tells(number, index, leaves))
}

// Whether each leaf fits the width of its row.
fn in_widths(rows: &[Row], leaves: &[u64]) -> bool
    ensures { result ≡ in_widths rows.now leaves.now }
{
    rows.iter()
        .zip(leaves)
        .all(|(row, leaf)| records::field(*leaf, 0, row.width) == *leaf)
}

// The leaves shifted to the places of their rows, and added up.
fn pack(rows: &[Row], leaves: &[u64]) -> u64
    requires { Low rows.now }
    ensures { result ≡ packed rows.now leaves.now % 2 ^ 64 }
{
    let mut sum: u64 = 0;
    for (row, leaf) in rows.iter().zip(leaves) {
        sum = sum.wrapping_add(*leaf << row.start);
    }
    sum
}

// The value, if it decodes.
#[tactic(auto, unfolding(crate::specs::Making::judged))]
fn judge(value: u64) -> Result<u64, Refusal>
    ensures { result ≡ judged value }
{
    let answer = esr::decode(value);
    answer.refusal.check()?;
    Ok(value)
}

// The value of the leaves at these rows, each in its width.
fn make_at(class: u64, il: u64, iss2: u64, rows: &[Row], leaves: &[u64]) -> Result<u64, Refusal>
    requires { (class < 64) × Low rows.now × Bounded rows.now leaves.now }
    ensures { result ≡ made_at class il iss2 rows.now leaves.now }
{
    if !in_widths(rows, leaves) {
        return Err(Refusal::carrying(Reason::WideLeaf, 0));
    }
    if 32 <= iss2 {
        return Err(Refusal::carrying(Reason::WideLeaf, 0));
    }
    if 2 <= il {
        return Err(Refusal::carrying(Reason::WideLeaf, 0));
    }
    let iss = pack(rows, leaves);
    judge(iss2 * 0x100000000 + (class * 0x4000000 + (il * 0x2000000 + iss)))
}

// The index of the outcome of the conditions whose rows fit the leaves of a class, for layout_sets::outcome.
pub fn fitting(class: u64, leaves: &[u64]) -> Option<usize>
    ensures { Fitting (class, leaves.now) result }
{
    let number = esr::layout_number(class);
    if number == esr::EMPTY {
        return None;
    }
    index_fitting(number, leaves)
}

pub fn make(class: u64, il: u64, iss2: u64, leaves: &[u64]) -> Result<u64, Refusal>
    ensures { Makes (class, il, iss2, leaves.now) result }
{
    let number = esr::layout_number(class);
    if number == esr::EMPTY {
        return Err(Refusal::carrying(Reason::InvalidEc, class));
    }
    match index_fitting(number, leaves) {
        Some(index) => {
            let set = leaf_rows(number, index);
            make_at(class, il, iss2, &set.rows[..set.count], leaves)
        }
        None => Err(Refusal::carrying(Reason::NoLayout, 0)),
    }
}
