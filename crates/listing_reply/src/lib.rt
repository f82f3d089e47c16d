// What a workshop is told of one input line, byte for byte, in a lent buffer from an offset on: the listing of a value or its refusal in words,
// named where there is more than one line; with the project's own texts or those of two phrase sheets (#112).
#![tactic(auto)]

ghost use Rattle.buffer.specs.Appending.{Appends};
ghost use Rattle.listing_reply.specs.Promises.{ListedPut, ListingReply, ListingWithReply};
ghost use Rattle.listing_reply.specs.Replies.{listed_with, name_line};

use digits::Base;
use display::{put_listing, put_listing_with};
use number::Number;
use reply_lines::{put_number_line, put_refusal};
use strict::{Profile, decode_by};

// Of a value, whatever it came from, read by a profile (#110).
// No plainer as one with `put_listed_with`: what is common is two lines, and a closure over the buffer has a longer contract.
pub fn put_listed(buf: &mut [u8], at: usize, profile: Profile, esr: u64) -> usize
    ensures { ListedPut (buf.old, at, profile, esr) (result, buf.new) }
{
    let answer = decode_by(profile, esr);
    if answer.refusal.is_refused() {
        return put_refusal(buf, at, answer.refusal);
    }
    let pool = texts::pool_bytes();
    let starts = texts::text_starts();
    put_listing(buf, at, pool, starts, answer.records)
}

// A line that holds no number is named by its number among the lines, since its bytes are not kept.
fn put_name(buf: &mut [u8], at: usize, line: u64, number: Number) -> usize
    ensures { Appends (name_line line number) (at, buf.old) (result, buf.new) }
{
    if line == 0 {
        return at;
    }
    if number.refusal.is_refused() {
        return put_number_line(buf, at, b"> line ", Base::Decimal, line);
    }
    put_number_line(buf, at, b"> 0x", Base::Hex, number.value)
}

// Line 0 is the only line, which has no name.
// No plainer as one with `put_listing_with_reply`: what is common is four lines, and a closure over the buffer has a longer contract.
pub fn put_listing_reply(
    buf: &mut [u8],
    at: usize,
    profile: Profile,
    line: u64,
    number: Number,
) -> usize
    ensures { ListingReply (buf.old, at, profile, line, number) (result, buf.new) }
{
    let next = put_name(buf, at, line, number);
    if number.refusal.is_refused() {
        return put_refusal(buf, next, number.refusal);
    }
    put_listed(buf, next, profile, number.value)
}

// The sheets are judged after the value.
// Two sheets, no plainer as a struct: they go on to `sheets_refusal` and `put_listing_with`, which take each by itself.
fn put_listed_with(
    buf: &mut [u8],
    at: usize,
    profile: Profile,
    workshop: &[u8],
    standard: &[u8],
    esr: u64,
) -> usize
    ensures { Appends (listed_with profile workshop.now standard.now esr) (at, buf.old) (result, buf.new) }
{
    let decoded = decode_by(profile, esr);
    if decoded.refusal.is_refused() {
        return put_refusal(buf, at, decoded.refusal);
    }
    if let Err(refusal) = phrases::sheets_refusal(workshop, standard) {
        return put_refusal(buf, at, refusal);
    }
    let pool = texts::pool_bytes();
    let starts = texts::text_starts();
    put_listing_with(buf, at, pool, starts, workshop, standard, decoded.records)
}

// The same reply with the texts of two sheets, the workshop's asked first.
// Kept: two sheets, which `ListingWithReply` names one by one.
pub fn put_listing_with_reply(
    buf: &mut [u8],
    at: usize,
    profile: Profile,
    line: u64,
    number: Number,
    workshop: &[u8],
    standard: &[u8],
) -> usize
    ensures { ListingWithReply (buf.old, at, profile, line, number, workshop.now, standard.now) (result, buf.new) }
{
    let next = put_name(buf, at, line, number);
    if number.refusal.is_refused() {
        return put_refusal(buf, next, number.refusal);
    }
    put_listed_with(buf, next, profile, workshop, standard, number.value)
}
