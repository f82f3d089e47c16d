// The lines that every reply is made of, in a lent buffer from an offset on: one that ends with a number; a refusal by its number, and why: the
// Rust's message where there is one, else words of our own.
#![tactic(auto)]

ghost use Rattle.buffer.specs.Appending.{Appends};
ghost use Rattle.reply_lines.specs.Lines.{field_part};
ghost use Rattle.reply_lines.specs.Promises.{CarriedLine, NumberLine, RefusalLine, RefusedPart, WhyPart};

use buffer::{put_bytes, put_code};
use digits::{Base, put_number};
use refusals::{Reason, Refusal};
use strings::put_message;
use texts::rules;

pub fn put_number_line(buf: &mut [u8], at: usize, front: &[u8], base: Base, value: u64) -> usize
    ensures { NumberLine (buf.old, at, front.now, base, value) (result, buf.new) }
{
    let mut next = put_bytes(buf, at, front);
    next = put_number(buf, next, base, value);
    put_bytes(buf, next, b"\n")
}

pub fn put_refused(buf: &mut [u8], at: usize, refusal: Refusal) -> usize
    ensures { RefusedPart (buf.old, at, refusal) (result, buf.new) }
{
    let next = put_bytes(buf, at, b"refused ");
    put_number(buf, next, Base::Decimal, refusal.number() as u64)
}

pub fn put_why(buf: &mut [u8], at: usize, refusal: Refusal) -> usize
    ensures { WhyPart (buf.old, at, refusal) (result, buf.new) }
{
    let number = refusal.number() as u64;
    if lookup::describes(rules::MESSAGE, number) {
        return put_message(
            buf,
            at,
            texts::pool_bytes(),
            texts::text_starts(),
            number,
            refusal.carries,
            refusal.start,
            refusal.width,
        );
    }
    let code = lookup::text_code(rules::OWN_WORDS, number);
    put_code(buf, at, code)
}

pub fn put_refusal(buf: &mut [u8], at: usize, refusal: Refusal) -> usize
    ensures { RefusalLine (buf.old, at, refusal) (result, buf.new) }
{
    let mut next = put_refused(buf, at, refusal);
    next = put_bytes(buf, next, b": ");
    next = put_why(buf, next, refusal);
    put_bytes(buf, next, b"\n")
}

// Where the field starts that a refusal names, and its width.
fn put_field_part(buf: &mut [u8], at: usize, refusal: Refusal) -> usize
    ensures { Appends (field_part refusal) (at, buf.old) (result, buf.new) }
{
    if refusal.reason != Reason::InvalidRes0 {
        return at;
    }
    let mut next = put_bytes(buf, at, b" start=");
    next = put_number(buf, next, Base::Decimal, refusal.start as u64);
    next = put_bytes(buf, next, b" width=");
    put_number(buf, next, Base::Decimal, refusal.width as u64)
}

// For machines.
pub fn put_carried(buf: &mut [u8], at: usize, refusal: Refusal) -> usize
    ensures { CarriedLine (buf.old, at, refusal) (result, buf.new) }
{
    let mut next = put_refused(buf, at, refusal);
    next = put_bytes(buf, next, b" carried=0x");
    next = put_number(buf, next, Base::Hex, refusal.carries);
    next = put_field_part(buf, next, refusal);
    next = put_bytes(buf, next, b" ");
    next = put_why(buf, next, refusal);
    put_bytes(buf, next, b"\n")
}
