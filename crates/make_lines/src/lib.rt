// The sets of leaves that a layout can have, told to whoever makes a value: of each leaf its place, names and width, and
// the values that it may have (#106).
#![tactic(auto)]

ghost use Rattle.std.specs.Prelude.{◌<◌, ◌≤◌, ◌++◌, length, ◌≡◌};
ghost use Rattle.digits.specs.Digits.{numeral};
ghost use Rattle.buffer.specs.Appending.{Appends};
ghost use Rattle.leaf_values.specs.Leaves.{leaves_of};
ghost use Rattle.make_lines.specs.Below.{below};
ghost use Rattle.make_lines.specs.Help.{before, counted, is_seen, leaf_line, may_at};
ghost use Rattle.make_lines.specs.Help.{place_part, run_part, set_at, set_text, values_part};
ghost use Rattle.make_lines.specs.Promises.{LeavesPut, NamePut, SetsPut, WidthPut};

use buffer::{put_bytes, put_code};
use digits::{Base, put_number};
use layout_sets::{SETS, outcome};
use leaf_values::{any_may, leaf_count, leaf_row, room_of, same_leaves};
use records::Row;

// An end of a run, after what leads to it.
fn put_end(buf: &mut [u8], at: usize, lead: &[u8], x: u64) -> usize
    ensures { Appends (lead.now ++ numeral 16 x) (at, buf.old) (result, buf.new) }
{
    let next = put_bytes(buf, at, lead);
    put_number(buf, next, Base::Hex, x)
}

// A number, and the word for one of them or for several.
fn put_counted(buf: &mut [u8], at: usize, count: u64, one: &[u8], more: &[u8]) -> usize
    ensures { Appends (counted count one.now more.now) (at, buf.old) (result, buf.new) }
{
    let next = put_number(buf, at, Base::Decimal, count);
    if count == 1 {
        return put_bytes(buf, next, one);
    }
    put_bytes(buf, next, more)
}

pub fn put_width(buf: &mut [u8], at: usize, width: u8) -> usize
    ensures { WidthPut (buf.old, at, width) (result, buf.new) }
{
    put_counted(buf, at, width as u64, b" bit", b" bits")
}

// The name, and the long name where there is one.
pub fn put_name(buf: &mut [u8], at: usize, row: Row) -> usize
    ensures { NamePut (buf.old, at, row) (result, buf.new) }
{
    let mut next = put_code(buf, at, row.name as u16);
    if row.long == 0 {
        return next;
    }
    next = put_bytes(buf, next, b", ");
    put_code(buf, next, row.long as u16)
}

fn put_place(buf: &mut [u8], at: usize, index: usize) -> usize
    requires { index < 64 }
    ensures { Appends (place_part index) (at, buf.old) (result, buf.new) }
{
    let mut next = put_bytes(buf, at, b"  ");
    next = put_number(buf, next, Base::Decimal, (index + 1) as u64);
    put_bytes(buf, next, b" ")
}

// A leaf of the layout of a number at an ISS, by its index from high bits to low.
#[derive(Clone, Copy)]
struct Leaf {
    number: u8,
    iss: u64,
    index: usize,
}

impl Leaf {
    fn may_be(self, x: u64) -> bool
        ensures { result ≡ may_at self x }
    {
        leaf_values::may_be(self.number, self.iss, self.index, x)
    }

    fn was(self, x: u64) -> bool
        ensures { result ≡ before (may_at self) x }
    {
        x != 0 && self.may_be(x - 1)
    }

    // The first of a run of values after a space, its last after a dash; what lies between says nothing.
    fn put_run(self, buf: &mut [u8], at: usize, x: u64) -> usize
        requires { x < 64 }
        ensures { Appends (run_part (may_at self) x) (at, buf.old) (result, buf.new) }
    {
        if !self.may_be(x) {
            return at;
        }
        if !self.was(x) {
            return put_end(buf, at, b" 0x", x);
        }
        if self.may_be(x + 1) {
            return at;
        }
        put_end(buf, at, b"-0x", x)
    }

    fn put_runs(self, buf: &mut [u8], at: usize, room: u64) -> usize
        requires { room ≤ 64 }
        ensures { Appends (below (run_part (may_at self)) room) (at, buf.old) (result, buf.new) }
    {
        let mut next = at;
        for x in 0..room {
            next = self.put_run(buf, next, x);
        }
        next
    }

    fn put_values(self, buf: &mut [u8], at: usize) -> usize
        ensures { Appends (values_part self.number self.iss self.index) (at, buf.old) (result, buf.new) }
    {
        if any_may(self.number, self.iss, self.index) {
            return at;
        }
        let row = leaf_row(self.number, self.iss, self.index);
        let next = put_bytes(buf, at, b":");
        self.put_runs(buf, next, room_of(row.width))
    }

    // PLACE NAME, LONG NAME, WIDTH bits: VALUES
    fn put_line(self, buf: &mut [u8], at: usize) -> usize
        requires { self.index < 64 }
        ensures { Appends (leaf_line self.number self.iss self.index) (at, buf.old) (result, buf.new) }
    {
        let row = leaf_row(self.number, self.iss, self.index);
        let mut next = put_place(buf, at, self.index);
        next = put_name(buf, next, row);
        next = put_bytes(buf, next, b", ");
        next = put_width(buf, next, row.width);
        next = self.put_values(buf, next);
        put_bytes(buf, next, b"\n")
    }
}

// Kept, number and ISS side by side, here and in `put_set`: no plainer, a struct of the two would be taken apart at each
// call.
fn put_leaves(buf: &mut [u8], at: usize, number: u8, iss: u64, count: usize) -> usize
    requires { count ≤ 64 }
    ensures { Appends (below (leaf_line number iss) count) (at, buf.old) (result, buf.new) }
{
    let mut next = at;
    for i in 0..count {
        let leaf = Leaf {
            number,
            iss,
            index: i,
        };
        next = leaf.put_line(buf, next);
    }
    next
}

// So many leaves, in words. Kept as a count: `LeavesPut` tells of any.
pub fn put_leaf_count(buf: &mut [u8], at: usize, count: u64) -> usize
    ensures { LeavesPut (buf.old, at, count) (result, buf.new) }
{
    put_counted(buf, at, count, b" leaf", b" leaves")
}

fn put_set(buf: &mut [u8], at: usize, number: u8, iss: u64) -> usize
    ensures { Appends (set_text number iss) (at, buf.old) (result, buf.new) }
{
    let count = leaf_count(number, iss);
    let mut next = put_leaf_count(buf, at, count as u64);
    next = put_bytes(buf, next, b":\n");
    put_leaves(buf, next, number, iss, count)
}

// Whether an outcome before this one has the same leaves.
fn is_seen(number: u8, k: usize) -> bool
    ensures { result ≡ is_seen number k }
{
    (0..k).any(|j| same_leaves(number, outcome(j), outcome(k)))
}

fn put_set_at(buf: &mut [u8], at: usize, number: u8, k: usize) -> usize
    ensures { Appends (set_at number k) (at, buf.old) (result, buf.new) }
{
    if is_seen(number, k) {
        return at;
    }
    put_set(buf, at, number, outcome(k))
}

// Each set of leaves that the layout of a number can have, once.
pub fn put_sets(buf: &mut [u8], at: usize, number: u8) -> usize
    ensures { SetsPut (buf.old, at, number) (result, buf.new) }
{
    let mut next = at;
    for k in 0..SETS {
        next = put_set_at(buf, next, number, k);
    }
    next
}
