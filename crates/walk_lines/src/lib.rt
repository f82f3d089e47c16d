// The lines that tell a walk over a fault block, in a lent buffer from an offset on: one for an entry, one for what was
// skipped after it, the counts, and where and why the walk ended.
#![tactic(auto)]

ghost use Rattle.buffer.specs.Appending.{Appends};
ghost use Rattle.walk_lines.specs.Lines.{bad_end, meaning, numbers_part, place, sound_end, verdict};
ghost use Rattle.walk_lines.specs.Promises.{CountLine, EndLine, EntryLine, StepLine};

use buffer::{put_bytes, put_code};
use digits::{Base, put_number};
use entry::Entry;
use refusals::Refusal;
use reply_lines::{put_number_line, put_refused, put_why};
use strict::{Profile, decode_by};
use texts::rules;

// What is told of a number that stood twice (#104).
const SAME: u16 = 65535;

fn put_verdict(buf: &mut [u8], at: usize, refusal: Refusal) -> usize
    ensures { Appends (verdict refusal) (at, buf.old) (result, buf.new) }
{
    if refusal.is_refused() {
        return put_refused(buf, at, refusal);
    }
    put_bytes(buf, at, b"ok")
}

fn put_place(buf: &mut [u8], at: usize, offset: usize) -> usize
    ensures { Appends (place offset) (at, buf.old) (result, buf.new) }
{
    let next = put_bytes(buf, at, b" at ");
    put_number(buf, next, Base::Decimal, offset as u64)
}

fn put_numbers(buf: &mut [u8], at: usize, entry: Entry) -> usize
    ensures { Appends (numbers_part entry) (at, buf.old) (result, buf.new) }
{
    let mut next = put_bytes(buf, at, b", sequence ");
    next = put_number(buf, next, Base::Decimal, entry.sequence as u64);
    next = put_bytes(buf, next, b", esr 0x");
    next = put_number(buf, next, Base::Hex, entry.esr);
    put_bytes(buf, next, b": ")
}

// The class text of an accepted value, or why it is refused.
fn put_meaning(buf: &mut [u8], at: usize, refusal: Refusal, esr: u64) -> usize
    ensures { Appends (meaning refusal esr) (at, buf.old) (result, buf.new) }
{
    if refusal.is_refused() {
        return put_why(buf, at, refusal);
    }
    let code = lookup::text_code(rules::CLASS_NAME, records::field(esr, 26, 6));
    put_code(buf, at, code)
}

// The entry's value is read by a profile (#110).
pub fn put_entry_line(
    buf: &mut [u8],
    at: usize,
    profile: Profile,
    offset: usize,
    entry: Entry,
) -> usize
    ensures { EntryLine (buf.old, at, profile, offset, entry) (result, buf.new) }
{
    let refusal = decode_by(profile, entry.esr).refusal;
    let mut next = put_verdict(buf, at, refusal);
    next = put_place(buf, next, offset);
    next = put_numbers(buf, next, entry);
    next = put_meaning(buf, next, refusal, entry.esr);
    put_bytes(buf, next, b"\n")
}

// None skipped says nothing.
pub fn put_step_line(buf: &mut [u8], at: usize, skipped: u16) -> usize
    ensures { StepLine (buf.old, at, skipped) (result, buf.new) }
{
    if skipped == 0 {
        return at;
    }
    if skipped == SAME {
        return put_bytes(buf, at, b"same sequence\n");
    }
    put_number_line(buf, at, b"lost ", Base::Decimal, skipped as u64)
}

pub fn put_count_line(buf: &mut [u8], at: usize, entries: usize, decoded: usize) -> usize
    ensures { CountLine (buf.old, at, entries, decoded) (result, buf.new) }
{
    let mut next = put_bytes(buf, at, b"entries ");
    next = put_number(buf, next, Base::Decimal, entries as u64);
    put_number_line(buf, next, b", decoded ", Base::Decimal, decoded as u64)
}

// Kept, the block's length and no block: `put_end_line` promises it of any length (`EndLine`).
fn put_sound_end(buf: &mut [u8], at: usize, length: usize, offset: usize) -> usize
    ensures { Appends (sound_end length offset) (at, buf.old) (result, buf.new) }
{
    let mut next = put_bytes(buf, at, b"end");
    next = put_place(buf, next, offset);
    if offset == length {
        return put_bytes(buf, next, b": the block's end\n");
    }
    put_bytes(buf, next, b": erased flash\n")
}

fn put_bad_end(buf: &mut [u8], at: usize, offset: usize, ended: Refusal) -> usize
    ensures { Appends (bad_end offset ended) (at, buf.old) (result, buf.new) }
{
    let mut next = put_refused(buf, at, ended);
    next = put_place(buf, next, offset);
    next = put_bytes(buf, next, b": ");
    next = put_why(buf, next, ended);
    put_bytes(buf, next, b"\n")
}

pub fn put_end_line(
    buf: &mut [u8],
    at: usize,
    length: usize,
    offset: usize,
    ended: Option<Refusal>,
) -> usize
    ensures { EndLine (buf.old, at, length, offset, ended) (result, buf.new) }
{
    match ended {
        Some(refusal) => put_bad_end(buf, at, offset, refusal),
        None => put_sound_end(buf, at, length, offset),
    }
}
