// Reads one flash entry, big-endian: its numbers, and its body as a part of the caller's own block.
#![tactic(auto)]

ghost use Rattle.std.specs.Prelude.{◌<◌, ◌^◌, ◌≤◌, length, ◌≡◌};
ghost use Rattle.entry.specs.BigEndian.{big_endian};
ghost use Rattle.entry.specs.Entries.{judged, lent};
ghost use Rattle.entry.specs.Promises.{Body, Read};
ghost use Rattle.refusals.specs.Refusals.{bare, checked};

use refusals::{Reason, Refusal};

// The bytes that follow the length: version, sequence, ESR.
const LENGTH: u64 = 11;

const VERSION: u8 = 1;

// The numbers of a sound entry. The ESR is not judged here.
#[derive(Clone, Copy)]
pub struct Entry {
    pub esr: u64,
    pub sequence: u16,
}

// The number of at most eight bytes, highest first.
fn big_endian(s: &[u8]) -> u64
    requires { length s.now ≤ 8 }
    ensures { (result ≡ big_endian s.now) × (result < 256 ^ length s.now) }
{
    let mut number: u64 = 0;
    for byte in s {
        number = number * 256 + *byte as u64;
    }
    number
}

// By a reason that carries nothing.
fn refused(reason: Reason) -> Result<(), Refusal>
    ensures { result ≡ checked (bare reason) }
{
    Refusal::carrying(reason, 0).check()
}

// One judgement for the numbers and for the body, in 01's order.
fn judge(block: &[u8]) -> Result<(), Refusal>
    ensures { result ≡ checked (bare (judged block.now)) }
{
    if block.len() < 2 {
        return refused(Reason::ShortEntry);
    }
    let length = big_endian(&block[0..2]);
    if length == 0 {
        return refused(Reason::BadLength);
    }
    if (block.len() as u64) < 2 + length {
        return refused(Reason::ShortEntry);
    }
    if block[2] != VERSION {
        return refused(Reason::BadVersion);
    }
    if length != LENGTH {
        return refused(Reason::BadLength);
    }
    Ok(())
}

pub fn read_entry(block: &[u8]) -> Result<Entry, Refusal>
    ensures { Read block.now result }
{
    judge(block)?;
    let sequence = big_endian(&block[3..5]) as u16;
    let esr = big_endian(&block[5..13]);
    Ok(Entry { esr, sequence })
}

// A part of the caller's own block: 11 bytes whatever follows them, and none on a refusal. Document 01 names this form, a
// part that is empty on a refusal, so that it is no Option.
pub fn entry_body(block: &[u8]) -> &[u8]
    ensures { Body (lent block.entry) (lent result) }
{
    if judge(block).is_err() {
        return &block[0..0];
    }
    &block[2..13]
}
