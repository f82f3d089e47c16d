// What is written at the front of a lent buffer: a field's two value strings, and a refusal's message. The whole text
// is measured first, by an appender without a buffer; then it is refused or written, and the bytes are answered. A
// refusal leaves the buffer as it was.
#![tactic(auto)]

ghost use Rattle.strings.specs.Messages.{message_text};
ghost use Rattle.written.specs.Outcomes.{Answers, text};
ghost use Rattle.written.specs.Promises.{BinaryString, Message, RoomFor, ValueString, WrittenRefused};
ghost use Rattle.written.specs.Requested.{fits as fitting, names_field, string_of};
ghost use Rattle.std.specs.Prelude.{◌≡◌};

use refusals::{Reason, Refusal};
use strings::{Form, RES0, put_message, put_string};
use texts::rules;

// A refusal: no bytes are written.
pub fn refused(reason: Reason, carries: u64) -> Result<usize, Refusal>
    ensures { WrittenRefused (reason, carries) result }
{
    Err(Refusal::carrying(reason, carries))
}

// The bytes of a text that was measured, if the buffer has room for them; the refusal carries the bytes needed.
// A caller measures and writes by itself: one function that takes the appender as a closure would require it to be
// callable, and no public function requires anything.
pub fn room_for(bytes: usize, buf: &[u8]) -> Result<usize, Refusal>
    ensures { RoomFor (bytes, buf.now) result }
{
    if buf.len() < bytes {
        return refused(Reason::ShortBuffer, bytes as u64);
    }
    Ok(bytes)
}

fn fits(width: u64, value: u64) -> bool
    ensures { result ≡ fitting width value }
{
    (1..=64).contains(&width) && (value >> (width - 1)) >> 1 == 0
}

// The one function of both strings. The width that fits is at most 64, and is cut to the eight bits that an appender
// takes.
fn field_string(form: Form, width: u64, value: u64, buf: &mut [u8]) -> Result<usize, Refusal>
    ensures { Answers (string_of form width value) buf.old (result, buf.new) }
{
    if !fits(width, value) {
        return refused(Reason::BadField, 0);
    }
    let narrow = width as u8;
    let bytes = room_for(put_string(&mut [], 0, form, narrow, value), buf)?;
    put_string(buf, 0, form, narrow, value);
    Ok(bytes)
}

pub fn value_string(width: u64, value: u64, buf: &mut [u8]) -> Result<usize, Refusal>
    ensures { ValueString (width, value, buf.old) (result, buf.new) }
{
    field_string(Form::Value, width, value, buf)
}

pub fn value_binary_string(width: u64, value: u64, buf: &mut [u8]) -> Result<usize, Refusal>
    ensures { BinaryString (width, value, buf.old) (result, buf.new) }
{
    field_string(Form::Binary, width, value, buf)
}

// Without a sum of start and width, which could wrap.
// Kept, a start and a width: `message` takes them one by one, in 64 bits (`Message`), and they may be of no field.
fn names_field(start: u64, width: u64, value: u64) -> bool
    ensures { result ≡ names_field start width value }
{
    fits(width, value) && start <= 64 - width
}

// The one text, of a number that has a message, whatever bits it names.
// Kept, no struct: it would stand between `message` and `put_message` alone, which both take the four (`MessagePut`).
fn message_text(
    number: u64,
    carried: u64,
    start: u8,
    width: u8,
    buf: &mut [u8],
) -> Result<usize, Refusal>
    ensures { Answers (text (message_text number carried start width)) buf.old (result, buf.new) }
{
    let starts = texts::text_starts();
    let pool = texts::pool_bytes();
    let measured = put_message(&mut [], 0, pool, starts, number, carried, start, width);
    let bytes = room_for(measured, buf)?;
    put_message(buf, 0, pool, starts, number, carried, start, width);
    Ok(bytes)
}

// The message of a refusal's number, with what it carries; that of 1 names a field of the value by its bits. All are of
// 64 bits, so that no caller's number is cut to one that has a message or to bits that there are.
pub fn message(
    number: u64,
    carried: u64,
    start: u64,
    width: u64,
    buf: &mut [u8],
) -> Result<usize, Refusal>
    ensures { Message (number, carried, start, width, buf.old) (result, buf.new) }
{
    if !lookup::describes(rules::MESSAGE, number) {
        return refused(Reason::BadField, 0);
    }
    if number != RES0 {
        return message_text(number, carried, 0, 0, buf);
    }
    if !names_field(start, width, carried) {
        return refused(Reason::BadField, 0);
    }
    message_text(number, carried, start as u8, width as u8, buf)
}
