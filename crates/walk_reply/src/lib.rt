// What a workshop is told of a fault block, byte for byte, in a lent buffer from an offset on: a line for each entry, what
// was lost between two, the counts, and where and why the walk ended; or why it is not walked.
#![tactic(auto)]

ghost use Rattle.buffer.specs.InOrder.{in_order};
ghost use Rattle.buffer.specs.Appending.{Appends};
ghost use Rattle.walk.specs.Walks.{entries_of};
ghost use Rattle.walk_reply.specs.Promises.{WalkReply};
ghost use Rattle.walk_reply.specs.Replies.{lines_at};
ghost use Rattle.std.specs.Prelude.{get_or, length, replicate, ◌≡◌};

use entry::read_entry;
use reply_lines::put_refusal;
use strict::Profile;
use walk::ENTRY_SIZE;
use walk_lines::{put_count_line, put_end_line, put_entry_line, put_step_line};

// The steps of any block: 5,041 entries fit it.
const STEPS: usize = 5040;

// A place past the array counts as 0, which says nothing.
fn step_at(steps: &[u16], i: usize) -> u16
    ensures { result ≡ get_or steps.now i 0 }
{
    steps.get(i).copied().unwrap_or(0)
}

// Kept, a count: it is what `walk` promises (`Walked`); a slice of whole entries would be cut by it, and be no plainer.
fn put_entries(
    buf: &mut [u8],
    at: usize,
    profile: Profile,
    block: &[u8],
    steps: &[u16],
    count: usize,
) -> usize
    requires { count ≡ length (entries_of block.now) }
    ensures { Appends (in_order (lines_at profile steps.now) (entries_of block.now)) (at, buf.old) (result, buf.new) }
{
    let mut next = at;
    for i in 0..count {
        let offset = ENTRY_SIZE * i;
        let entry = read_entry(&block[offset..]).unwrap();
        next = put_entry_line(buf, next, profile, offset, entry);
        next = put_step_line(buf, next, step_at(steps, i));
    }
    next
}

// No place is used before the walk writes it, and 0 says nothing.
fn no_steps() -> [u16; STEPS]
    ensures { result ≡ replicate 5040 0 }
{
    [0; STEPS]
}

// The values are read by a profile (#110).
pub fn put_walk_reply(buf: &mut [u8], at: usize, profile: Profile, block: &[u8]) -> usize
    ensures { WalkReply (buf.old, at, profile, block.now) (result, buf.new) }
{
    let mut steps = no_steps();
    match walk::walk(profile, block, &mut steps) {
        Ok(walked) => {
            let mut next = put_entries(buf, at, profile, block, &steps, walked.entries);
            next = put_count_line(buf, next, walked.entries, walked.decoded);
            put_end_line(buf, next, block.len(), walked.offset, walked.ended)
        }
        Err(refusal) => put_refusal(buf, at, refusal),
    }
}
