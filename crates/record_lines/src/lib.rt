// The records of a value for machines, a line for each, and the bytes of an entry's body, in a lent buffer from an offset on.
#![tactic(auto)]

ghost use Rattle.buffer.specs.Appending.{Appends};
ghost use Rattle.buffer.specs.InOrder.{in_order};
ghost use Rattle.record_lines.specs.Lines.{bits_part, byte_text, depth_at, mark_part, number_part, record_line, text_part};
ghost use Rattle.record_lines.specs.Promises.{BodyLine, RecordLines};

use buffer::{put_bytes, put_code};
use digits::{Base, put_digits, put_number};
use records::{Mark, Record, Records};

// ISS's own records come after the five of the top.
const TOP: usize = 5;

// Each byte after a space.
fn put_each(buf: &mut [u8], at: usize, body: &[u8]) -> usize
    ensures { Appends (in_order byte_text body.now) (at, buf.old) (result, buf.new) }
{
    let mut next = at;
    for b in body {
        next = put_bytes(buf, next, b" ");
        next = put_digits(buf, next, Base::Hex, 2, *b as u64);
    }
    next
}

pub fn put_body(buf: &mut [u8], at: usize, body: &[u8]) -> usize
    ensures { BodyLine (buf.old, at, body.now) (result, buf.new) }
{
    let mut next = put_bytes(buf, at, b"body");
    next = put_each(buf, next, body);
    put_bytes(buf, next, b"\n")
}

fn put_depth(buf: &mut [u8], at: usize, index: usize) -> usize
    ensures { Appends (depth_at index) (at, buf.old) (result, buf.new) }
{
    if index < TOP {
        return put_bytes(buf, at, b"0");
    }
    put_bytes(buf, at, b"1")
}

fn put_text_part(buf: &mut [u8], at: usize, code: u16) -> usize
    ensures { Appends (text_part code) (at, buf.old) (result, buf.new) }
{
    let next = put_bytes(buf, at, b"|");
    if code == 0 {
        return put_bytes(buf, next, b"-");
    }
    put_code(buf, next, code)
}

fn put_number_part(buf: &mut [u8], at: usize, number: u8) -> usize
    ensures { Appends (number_part number) (at, buf.old) (result, buf.new) }
{
    let next = put_bytes(buf, at, b"|");
    put_number(buf, next, Base::Decimal, number as u64)
}

fn put_bits(buf: &mut [u8], at: usize, item: Record) -> usize
    ensures { Appends (bits_part item) (at, buf.old) (result, buf.new) }
{
    let mut next = put_number_part(buf, at, item.start);
    next = put_number_part(buf, next, item.width);
    next = put_bytes(buf, next, b"|0x");
    put_number(buf, next, Base::Hex, item.value)
}

#[tactic(auto, unfolding(crate::specs::Lines::mark_part, texts::specs::Pool::bytes))]
fn put_mark(buf: &mut [u8], at: usize, mark: Mark) -> usize
    ensures { Appends (mark_part mark) (at, buf.old) (result, buf.new) }
{
    match mark {
        Mark::Free => put_bytes(buf, at, b"|free\n"),
        Mark::Coded => put_bytes(buf, at, b"|coded\n"),
        Mark::Checked => put_bytes(buf, at, b"|checked\n"),
        Mark::Unchecked => put_bytes(buf, at, b"|unchecked\n"),
    }
}

// DEPTH|NAME|LONG NAME|START|WIDTH|0xVALUE|TEXT|MARK
fn put_record(buf: &mut [u8], at: usize, index: usize, item: Record) -> usize
    ensures { Appends (record_line index item) (at, buf.old) (result, buf.new) }
{
    let mut next = put_depth(buf, at, index);
    next = put_text_part(buf, next, item.name);
    next = put_text_part(buf, next, item.long as u16);
    next = put_bits(buf, next, item);
    next = put_text_part(buf, next, item.text);
    let mark = item.mark;
    put_mark(buf, next, mark)
}

pub fn put_record_lines(buf: &mut [u8], at: usize, records: Records) -> usize
    ensures { RecordLines (buf.old, at, records) (result, buf.new) }
{
    let mut next = at;
    for i in 0..records.count.min(Records::MAX) {
        next = put_record(buf, next, i, records.items[i]);
    }
    next
}
