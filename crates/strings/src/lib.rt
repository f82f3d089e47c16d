// The texts that need no decoding, in a lent buffer from an offset on: a field's two value strings, each alone or both as in a record's line, and
// a refusal's message.
#![tactic(auto)]

ghost use Rattle.buffer.specs.Appending.{Appends};
ghost use Rattle.strings.specs.Fields.{binary_text, value_text};
ghost use Rattle.strings.specs.Messages.{bits_text};
ghost use Rattle.strings.specs.Promises.{FieldPut, MessagePut, StringPut};

use buffer::{put_bytes, put_text};
use digits::{Base, put_digits, put_number};
use texts::rules;

// The number of the refusal that names a field. A number and no Reason: kept, `MessagePut` speaks of any number.
pub const RES0: u64 = 1;

// Which of a field's two value strings.
#[derive(Clone, Copy)]
pub enum Form {
    Value,
    Binary,
}

fn put_value(buf: &mut [u8], at: usize, width: u8, value: u64) -> usize
    ensures { Appends (value_text width value) (at, buf.old) (result, buf.new) }
{
    if width == 1 {
        if value == 1 {
            return put_bytes(buf, at, b"true");
        }
        return put_bytes(buf, at, b"false");
    }
    let next = put_bytes(buf, at, b"0x");
    put_digits(buf, next, Base::Hex, ((width as u16 + 3) / 4) as u8, value)
}

fn put_binary(buf: &mut [u8], at: usize, width: u8, value: u64) -> usize
    ensures { Appends (binary_text width value) (at, buf.old) (result, buf.new) }
{
    let next = put_bytes(buf, at, b"0b");
    put_digits(buf, next, Base::Binary, width, value)
}

pub fn put_string(buf: &mut [u8], at: usize, form: Form, width: u8, value: u64) -> usize
    ensures { StringPut (buf.old, at, form, width, value) (result, buf.new) }
{
    match form {
        Form::Value => return put_value(buf, at, width, value),
        Form::Binary => return put_binary(buf, at, width, value),
    }
}

// A value as it stands in a record's line: its string and, where it is wider than one bit, its binary string.
pub fn put_field(buf: &mut [u8], at: usize, width: u8, value: u64) -> usize
    ensures { FieldPut (buf.old, at, width, value) (result, buf.new) }
{
    let a = put_value(buf, at, width, value);
    if width == 1 {
        return a;
    }
    let b = put_bytes(buf, a, b" ");
    put_binary(buf, b, width, value)
}

// START..END of 1's field, the end not counted.
// Kept, no struct of start and width: `put_message` is lent them one by one (`MessagePut`), and this is its only call.
fn put_bits(buf: &mut [u8], at: usize, number: u64, start: u8, width: u8) -> usize
    ensures { Appends (bits_text number start width) (at, buf.old) (result, buf.new) }
{
    if number != RES0 {
        return at;
    }
    let a = put_number(buf, at, Base::Decimal, start as u64);
    let b = put_bytes(buf, a, b"..");
    put_number(buf, b, Base::Decimal, start as u64 + width as u64)
}

// What stands before the number that a refusal carries, the number, what stands after it; of 1 also the bits of its field.
// Kept, a pool and its starts: `MessagePut` names both as they are lent.
pub fn put_message(
    buf: &mut [u8],
    at: usize,
    pool: &[u8],
    starts: &[u16],
    number: u64,
    carried: u64,
    start: u8,
    width: u8,
) -> usize
    ensures { MessagePut (buf.old, at, pool.now, starts.now, number, carried, start, width) (result, buf.new) }
{
    let front = lookup::text_code(rules::MESSAGE, number);
    let end = lookup::text_code(rules::MESSAGE_END, number);
    let a = put_text(buf, at, pool, starts, front);
    let b = put_bytes(buf, a, b"0x");
    let c = put_number(buf, b, Base::Hex, carried);
    let d = put_text(buf, c, pool, starts, end);
    put_bits(buf, d, number, start, width)
}
