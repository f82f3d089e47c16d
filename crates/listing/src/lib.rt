// The texts of a decoded value, at the front of a lent buffer: the line of one of its records, and the listing of all.
// Each function measures the whole text first, by an appender without a buffer, then refuses or writes it, and answers
// its bytes; a refusal leaves the buffer as it was.
#![tactic(auto)]

ghost use Rattle.listing.specs.Promises.{Listing, ListingWith, RecordLine};

use display::{put_line, put_listing, put_listing_with};
use refusals::{Reason, Refusal};
use written::room_for;

// The Rust's Display of one record; the index is flat, ISS's own records from 5 on.
pub fn record_line(esr: u64, index: usize, buf: &mut [u8]) -> Result<usize, Refusal>
    ensures { RecordLine (esr, index, buf.old) (result, buf.new) }
{
    let answer = esr::decode(esr);
    answer.refusal.check()?;
    let count = answer.records.count;
    if count <= index {
        return Err(Refusal::carrying(Reason::BadIndex, count as u64));
    }
    let item = answer.records.at(index);
    let starts = texts::text_starts();
    let pool = texts::pool_bytes();
    let bytes = room_for(put_line(&mut [], 0, pool, starts, item), buf)?;
    put_line(buf, 0, pool, starts, item);
    Ok(bytes)
}

pub fn listing(esr: u64, buf: &mut [u8]) -> Result<usize, Refusal>
    ensures { Listing (esr, buf.old) (result, buf.new) }
{
    let answer = esr::decode(esr);
    answer.refusal.check()?;
    let starts = texts::text_starts();
    let pool = texts::pool_bytes();
    let bytes = room_for(put_listing(&mut [], 0, pool, starts, answer.records), buf)?;
    put_listing(buf, 0, pool, starts, answer.records);
    Ok(bytes)
}

// The listing with the texts of two sheets (#112), which are judged once, after the value.
// Kept: two sheets, which `ListingWith` names one by one, as C lends them to `esr_listing_with`.
pub fn listing_with(
    esr: u64,
    workshop: &[u8],
    standard: &[u8],
    buf: &mut [u8],
) -> Result<usize, Refusal>
    ensures { ListingWith (esr, workshop.now, standard.now, buf.old) (result, buf.new) }
{
    let answer = esr::decode(esr);
    answer.refusal.check()?;
    phrases::sheets_refusal(workshop, standard)?;
    let starts = texts::text_starts();
    let pool = texts::pool_bytes();
    let measured = put_listing_with(&mut [], 0, pool, starts, workshop, standard, answer.records);
    let bytes = room_for(measured, buf)?;
    put_listing_with(buf, 0, pool, starts, workshop, standard, answer.records);
    Ok(bytes)
}
