// What `esr make` says, byte for byte, in a lent buffer from an offset on: the value that was made, or why there is none;
// the sets of leaves of a class; and of numbers that cannot be read or are too few (#106).
#![tactic(auto)]

ghost use Rattle.buffer.specs.Appending.{Appends};
ghost use Rattle.make_reply.specs.Promises.{BadNumber, HelpReply, MakeReply, TooFew};
ghost use Rattle.make_reply.specs.Asked.{no_layout_of, too_wide_of, unmade_of};
ghost use Rattle.make_reply.specs.Replies.{reason_line};
ghost use Rattle.texts.specs.Pool.{bytes, description_of};
ghost use Rattle.texts.specs.Rules.{class_name};

use buffer::{put_bytes, put_code};
use digits::{Base, put_number};
use make_reasons::{put_no_layout, put_too_wide};
use refusals::{Reason, Refusal};
use reply_lines::{put_number_line, put_refusal, put_refused, put_why};
use texts::rules;

// What a value is asked for with.
#[derive(Clone, Copy)]
struct Asked<'a> {
    class: u64,
    il: u64,
    iss2: u64,
    leaves: &'a [u64],
}

impl Asked<'_> {
    fn put_no_layout_line(self, buf: &mut [u8], at: usize, refusal: Refusal) -> usize
        ensures { Appends (reason_line refusal (no_layout_of self.entry)) (at, buf.old) (result, buf.new) }
    {
        let mut next = put_refused(buf, at, refusal);
        next = put_bytes(buf, next, b": ");
        let number = esr::layout_number(self.class);
        next = put_no_layout(buf, next, self.class, number, self.leaves.len());
        put_bytes(buf, next, b"\n")
    }

    // By an ISS of the set that fits.
    fn put_wide_line(self, buf: &mut [u8], at: usize, refusal: Refusal, iss: u64) -> usize
        ensures { Appends (reason_line refusal (too_wide_of self.entry iss)) (at, buf.old) (result, buf.new) }
    {
        let mut next = put_refused(buf, at, refusal);
        next = put_bytes(buf, next, b": ");
        let number = esr::layout_number(self.class);
        next = put_too_wide(buf, next, self.il, self.iss2, number, iss, self.leaves);
        put_bytes(buf, next, b"\n")
    }

    // Why nothing was made: of two reasons in words of the class's own leaves, by the set that fits them.
    fn put_unmade(self, buf: &mut [u8], at: usize, refusal: Refusal, index: Option<usize>) -> usize
        ensures { Appends (unmade_of self.entry refusal index) (at, buf.old) (result, buf.new) }
    {
        match refusal.reason {
            Reason::NoLayout => self.put_no_layout_line(buf, at, refusal),
            Reason::WideLeaf => {
                let iss = layout_sets::outcome(index.unwrap_or(layout_sets::SETS));
                self.put_wide_line(buf, at, refusal, iss)
            }
            _ => put_refusal(buf, at, refusal),
        }
    }
}

pub fn put_make_reply(
    buf: &mut [u8],
    at: usize,
    class: u64,
    il: u64,
    iss2: u64,
    leaves: &[u64],
) -> usize
    ensures { MakeReply (buf.old, at, class, il, iss2, leaves.now) (result, buf.new) }
{
    let index = maker::fitting(class, leaves);
    match maker::make(class, il, iss2, leaves) {
        Ok(value) => put_number_line(buf, at, b"0x", Base::Hex, value),
        Err(refusal) => {
            let asked = Asked {
                class,
                il,
                iss2,
                leaves,
            };
            asked.put_unmade(buf, at, refusal, index)
        }
    }
}

fn put_class_text(buf: &mut [u8], at: usize, class: u64) -> usize
    ensures { Appends (bytes (description_of class_name.number class)) (at, buf.old) (result, buf.new) }
{
    let code = lookup::text_code(rules::CLASS_NAME, class);
    put_code(buf, at, code)
}

pub fn put_help_reply(buf: &mut [u8], at: usize, class: u64) -> usize
    ensures { HelpReply (buf.old, at, class) (result, buf.new) }
{
    let number = esr::layout_number(class);
    if number == esr::EMPTY {
        return put_refusal(buf, at, Refusal::carrying(Reason::InvalidEc, class));
    }
    let mut next = put_bytes(buf, at, b"class 0x");
    next = put_number(buf, next, Base::Hex, class);
    next = put_bytes(buf, next, b": ");
    next = put_class_text(buf, next, class);
    next = put_bytes(buf, next, b"\nIL, 1 bit; ISS2, 5 bits; then\n");
    make_lines::put_sets(buf, next, number)
}

// The number at a place is none.
pub fn put_bad_number(buf: &mut [u8], at: usize, place: u64, refusal: Refusal) -> usize
    ensures { BadNumber (buf.old, at, place, refusal) (result, buf.new) }
{
    let mut next = put_refused(buf, at, refusal);
    next = put_bytes(buf, next, b": number ");
    next = put_number(buf, next, Base::Decimal, place);
    next = put_bytes(buf, next, b", ");
    next = put_why(buf, next, refusal);
    put_bytes(buf, next, b"\n")
}

// Class, IL and ISS2 come before the leaves. Kept as a count: `TooFew` tells of any.
pub fn put_too_few(buf: &mut [u8], at: usize, count: u64) -> usize
    ensures { TooFew (buf.old, at, count) (result, buf.new) }
{
    put_number_line(
        buf,
        at,
        b"refused: CLASS IL ISS2 LEAF.. are asked for; numbers given: ",
        Base::Decimal,
        count,
    )
}
