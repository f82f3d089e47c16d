// What a workshop is told of a flash entry, byte for byte, in a lent buffer from an offset on: its numbers, its body and
// the listing of its ESR, or its refusal.
#![tactic(auto)]

ghost use Rattle.buffer.specs.Appending.{Appends};
ghost use Rattle.entry_reply.specs.Promises.{EntryReply};
ghost use Rattle.entry_reply.specs.Replies.{entry_text};

use digits::Base;
use entry::{Entry, entry_body, read_entry};
use listing_reply::put_listed;
use record_lines::put_body;
use reply_lines::{put_number_line, put_refusal};
use strict::Profile;

fn put_sound(buf: &mut [u8], at: usize, profile: Profile, entry: Entry, body: &[u8]) -> usize
    ensures { Appends (entry_text profile entry.sequence entry.esr body.now) (at, buf.old) (result, buf.new) }
{
    let mut next = put_number_line(buf, at, b"sequence ", Base::Decimal, entry.sequence as u64);
    next = put_number_line(buf, next, b"esr 0x", Base::Hex, entry.esr);
    next = put_body(buf, next, body);
    put_listed(buf, next, profile, entry.esr)
}

// The ESR is read by a profile (#110).
pub fn put_entry_reply(buf: &mut [u8], at: usize, profile: Profile, block: &[u8]) -> usize
    ensures { EntryReply (buf.old, at, profile, block.now) (result, buf.new) }
{
    match read_entry(block) {
        Ok(entry) => put_sound(buf, at, profile, entry, entry_body(block)),
        Err(refusal) => put_refusal(buf, at, refusal),
    }
}
