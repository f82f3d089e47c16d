// Writes the standard phrase sheet from the pool (#112): every text that a record can have, by its code.
#![tactic(auto)]

ghost use Rattle.std.specs.Prelude.{length, ◌≡◌};
ghost use Rattle.buffer.specs.Appending.{Appends};
ghost use Rattle.phrases.specs.Writing.{phrases_bytes};
ghost use Rattle.sheets.specs.Promises.{IsRecords, StandardSheet};
ghost use Rattle.sheets.specs.Standard.{is_message, is_records, phrase_at, standard_phrases, standard_sheet};

use buffer::{put_bytes, put_code};
use refusals::Refusal;
use texts::pool;
use written::room_for;

const VERSION: u8 = 1;

// The words of messages lie together in the pool.
fn is_message(code: u16) -> bool
    ensures { result ≡ is_message code }
{
    pool::MESSAGE_FIRST <= code && code < pool::MSR_READ_FIRST
}

// Whether a record can have the text of a code.
fn is_told(code: u16) -> bool
    ensures { result ≡ is_records code }
{
    pool::BIT_FIRST <= code && !is_message(code) && lookup::length_of(code) != 0
}

// Whether the standard sheet has a code: a record can have its text.
pub fn is_records(code: u64) -> bool
    ensures { IsRecords code result }
{
    match u16::try_from(code) {
        Ok(small) => is_told(small),
        Err(_) => false,
    }
}

fn put_phrase(buf: &mut [u8], at: usize, code: u16) -> usize
    ensures { Appends (phrases_bytes (phrase_at code)) (at, buf.old) (result, buf.new) }
{
    if !is_told(code) {
        return at;
    }
    let [high, low] = code.to_be_bytes();
    let head = [high, low, lookup::length_of(code) as u8];
    let a = put_bytes(buf, at, &head);
    put_code(buf, a, code)
}

fn put_phrases(buf: &mut [u8], at: usize) -> usize
    ensures { Appends (phrases_bytes standard_phrases) (at, buf.old) (result, buf.new) }
{
    let mut next = at;
    for code in pool::BIT_FIRST..pool::COUNT as u16 {
        next = put_phrase(buf, next, code);
    }
    next
}

// The phrases have so many bytes.
fn put_sheet(buf: &mut [u8], at: usize, count: usize) -> usize
    requires { count ≡ length (phrases_bytes standard_phrases) }
    ensures { Appends standard_sheet (at, buf.old) (result, buf.new) }
{
    let following = 1 + count;
    let [high, low] = (following as u16).to_be_bytes();
    let head = [high, low, VERSION];
    let a = put_bytes(buf, at, &head);
    put_phrases(buf, a)
}

// The sheet is measured first, and its bytes are answered; a refusal leaves the buffer as it was.
pub fn standard_sheet(buf: &mut [u8]) -> Result<usize, Refusal>
    ensures { StandardSheet buf.old (result, buf.new) }
{
    let count = put_phrases(&mut [], 0);
    let bytes = room_for(put_sheet(&mut [], 0, count), buf)?;
    put_sheet(buf, 0, count);
    Ok(bytes)
}
