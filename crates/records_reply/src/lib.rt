// What machines are told of one input line, byte for byte, in a lent buffer from an offset on: whether it holds a number, and the records of the
// value or its refusal.
#![tactic(auto)]

ghost use Rattle.buffer.specs.Appending.{Appends};
ghost use Rattle.records_reply.specs.Promises.{NumberReply, RecordsReply};
ghost use Rattle.records_reply.specs.Replies.{decoded};

use digits::Base;
use number::Number;
use record_lines::put_record_lines;
use reply_lines::{put_carried, put_number_line};
use strict::{Profile, decode_by};

pub fn put_number_reply(buf: &mut [u8], at: usize, number: Number) -> usize
    ensures { NumberReply (buf.old, at, number) (result, buf.new) }
{
    let refusal = number.refusal;
    if refusal.is_refused() {
        return put_number_line(buf, at, b"refused ", Base::Decimal, refusal.number() as u64);
    }
    put_number_line(buf, at, b"ok 0x", Base::Hex, number.value)
}

// No plainer as one with `put_listed` of listing_reply: a closure over the buffer has a longer contract than these two lines.
fn put_decoded(buf: &mut [u8], at: usize, profile: Profile, esr: u64) -> usize
    ensures { Appends (decoded profile esr) (at, buf.old) (result, buf.new) }
{
    let answer = decode_by(profile, esr);
    if answer.refusal.is_refused() {
        return put_carried(buf, at, answer.refusal);
    }
    put_record_lines(buf, at, answer.records)
}

// A line that holds no number has a refusal alone. A value is read by a profile (#110).
pub fn put_records_reply(buf: &mut [u8], at: usize, profile: Profile, number: Number) -> usize
    ensures { RecordsReply (buf.old, at, profile, number) (result, buf.new) }
{
    if number.refusal.is_refused() {
        return put_number_reply(buf, at, number);
    }
    let next = put_number_line(buf, at, b"> 0x", Base::Hex, number.value);
    put_decoded(buf, next, profile, number.value)
}
