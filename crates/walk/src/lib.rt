// Walks over a fault block: how many entries it holds and how many of their values decode, what was skipped from each to
// the next, and where and why the walk ends.
#![tactic(auto)]

ghost use Rattle.std.specs.Prelude.{◌≡◌, ◌≤◌, ◌++◌, length, drop, if◌then◌else◌};
ghost use Rattle.walk.specs.Promises.{BlockWalked};
ghost use Rattle.walk.specs.Walks.{decoded_in, decodes, end_refusal, entries_of, over, skipped, steps_in};

use entry::read_entry;
use refusals::{Reason, Refusal};
use strict::{Profile, decode_by};

// The longest block (#104).
const LIMIT: usize = 65536;

// The bytes of an entry, its length's two included.
pub const ENTRY_SIZE: usize = 13;

// What erased flash holds.
const ERASED: u8 = 0xFF;

// Where the walk ended, and by which bad entry, if any.
#[derive(Clone, Copy)]
pub struct Walked {
    pub entries: usize,
    pub decoded: usize,
    pub offset: usize,
    pub ended: Option<Refusal>,
}

#[derive(Clone, Copy)]
struct Counts {
    entries: usize,
    decoded: usize,
}

// By wrapping subtraction: after 65,535 comes 0, and an equal number gives 65,535 (#104).
fn skipped_to(last: u16, next: u16) -> u16
    ensures { result ≡ skipped last next }
{
    next.wrapping_sub(last).wrapping_sub(1)
}

// What one value adds to the count of those that decode.
fn decoded_of(profile: Profile, esr: u64) -> usize
    ensures { result ≡ (if decodes profile esr then 1 else 0) }
{
    if decode_by(profile, esr).refusal.is_refused() {
        0
    } else {
        1
    }
}

// The entry reader refuses what stands where the walk ends, erased flash and the block's end too, so that it alone is
// asked. No plainer by a range or by chunks: the place goes on by an entry's bytes, until the reader refuses.
fn count(profile: Profile, block: &[u8]) -> Counts
    ensures { (result.entries ≡ length (entries_of block.now))
        × (result.decoded ≡ decoded_in profile (entries_of block.now)) }
{
    let mut entries: usize = 0;
    let mut decoded: usize = 0;
    let mut at: usize = 0;
    while let Ok(entry) = read_entry(&block[at..]) {
        entries += 1;
        decoded += decoded_of(profile, entry.esr);
        at += ENTRY_SIZE;
    }
    Counts { entries, decoded }
}

// Whether no entry stands here: at the end of the block, and at two bytes 0xFF.
fn is_over(rest: &[u8]) -> bool
    ensures { result ≡ over rest.now }
{
    rest.is_empty() || rest.starts_with(&[ERASED, ERASED])
}

// That of the first bad entry, if one ended the walk.
fn end_refusal(rest: &[u8]) -> Option<Refusal>
    ensures { result ≡ end_refusal rest.now }
{
    if is_over(rest) {
        return None;
    }
    read_entry(rest).err()
}

// A step for each entry after the first: the run has room for them. The loop is that of `count`, by the same stride.
fn write_steps(block: &[u8], steps: &mut [u16])
    requires { length (steps_in block.now) ≤ length steps.old }
    ensures { steps.new ≡ steps_in block.now ++ drop (length (steps_in block.now)) steps.old }
{
    let Ok(first) = read_entry(block) else {
        return;
    };
    let mut last = first.sequence;
    let mut written: usize = 0;
    let mut at: usize = ENTRY_SIZE;
    while let Ok(next) = read_entry(&block[at..]) {
        steps[written] = skipped_to(last, next.sequence);
        last = next.sequence;
        written += 1;
        at += ENTRY_SIZE;
    }
}

// Counts first, so that a refusal leaves the run as it was. The profile says which values decode (#110); an entry is read
// alike by each.
pub fn walk(profile: Profile, block: &[u8], steps: &mut [u16]) -> Result<Walked, Refusal>
    ensures { BlockWalked (profile, block.now, steps.old) (result, steps.new) }
{
    if LIMIT < block.len() {
        return Err(Refusal::carrying(Reason::LongBlock, 0));
    }
    let Counts { entries, decoded } = count(profile, block);
    let needed = entries.saturating_sub(1);
    if steps.len() < needed {
        return Err(Refusal::carrying(Reason::ShortBuffer, needed as u64));
    }
    write_steps(block, steps);
    let offset = ENTRY_SIZE * entries;
    let ended = end_refusal(&block[offset..]);
    Ok(Walked {
        entries,
        decoded,
        offset,
        ended,
    })
}
