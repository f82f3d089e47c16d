// What a survey says, a line to a place of its totals, and what such a line says when it is read back; sums of what several surveys counted (#101).
#![tactic(auto)]

ghost use Rattle.std.specs.Prelude.{◌+◌, ◌^◌, ◌<◌, ◌≤◌, get_or, length, MatchOption, ◌≡◌};
ghost use Rattle.buffer.specs.Appending.{Appends};
ghost use Rattle.survey_reply.specs.Counts.{LabelOf, place_of};
ghost use Rattle.survey_reply.specs.Promises.{CountAdded, CountRead, RunAdded, SurveyPut};
ghost use Rattle.survey_reply.specs.Replies.{count_line, front, is_said, label, said_line};
ghost use Rattle.survey_reply.specs.Sums.{add_each};

use buffer::put_bytes;
use digits::{Base, put_digits, put_number};
use number::parse_number;
use refusals::{VALUE_NUMBERS, value_number};

// The places of the totals: a class each, then the numbers that a value can be refused by, then the lines that held no number.
pub const CLASSES: usize = 64;

pub const NO_NUMBER: usize = CLASSES + VALUE_NUMBERS;

pub const PLACES: usize = NO_NUMBER + 1;

// No label and space are longer.
const FRONT_MAX: usize = 16;

// A line of a survey read back.
#[derive(Clone, Copy)]
pub struct Count {
    pub count: u64,
    pub place: usize,
}

// The place whose label begins a line, and the offset of the line's count.
#[derive(Clone, Copy)]
struct Labelled {
    place: usize,
    next: usize,
}

fn put_label(buf: &mut [u8], at: usize, place: usize) -> usize
    ensures { Appends (label place) (at, buf.old) (result, buf.new) }
{
    if place < CLASSES {
        let next = put_bytes(buf, at, b"0x");
        return put_digits(buf, next, Base::Hex, 2, place as u64);
    }
    if place < NO_NUMBER {
        let next = put_bytes(buf, at, b"refused ");
        return put_number(
            buf,
            next,
            Base::Decimal,
            value_number(place - CLASSES) as u64,
        );
    }
    put_bytes(buf, at, b"no number:")
}

fn put_front(buf: &mut [u8], at: usize, place: usize) -> usize
    ensures { Appends (front place) (at, buf.old) (result, buf.new) }
{
    let next = put_label(buf, at, place);
    put_bytes(buf, next, b" ")
}

fn put_count(buf: &mut [u8], at: usize, place: usize, count: u64) -> usize
    ensures { Appends (count_line place count) (at, buf.old) (result, buf.new) }
{
    let mut next = put_front(buf, at, place);
    next = put_number(buf, next, Base::Decimal, count);
    put_bytes(buf, next, b"\n")
}

#[tactic(auto, unfolding(crate::specs::Replies::is_said))]
fn is_said(all: bool, place: usize, count: u64) -> bool
    ensures { result ≡ is_said all place count }
{
    NO_NUMBER <= place || (count != 0 && (place < CLASSES || all))
}

fn put_place(buf: &mut [u8], at: usize, all: bool, place: usize, count: u64) -> usize
    ensures { Appends (said_line all place count) (at, buf.old) (result, buf.new) }
{
    if is_said(all, place, count) {
        return put_count(buf, at, place, count);
    }
    at
}

// A place that the totals lack counts nothing.
fn total_at(totals: &[u64], place: usize) -> u64
    ensures { result ≡ get_or totals.now place 0 }
{
    totals.get(place).copied().unwrap_or(0)
}

// What a survey says of its totals; of those that were refused only where all is asked for.
pub fn put_survey(buf: &mut [u8], at: usize, totals: &[u64], all: bool) -> usize
    ensures { SurveyPut (buf.old, at, totals.now, all) (result, buf.new) }
{
    let mut next = at;
    for place in 0..PLACES {
        next = put_place(buf, next, all, place, total_at(totals, place));
    }
    next
}

// Puts the label and the space of each place beside the line, until one begins it.
fn find_label(line: &[u8]) -> Option<Labelled>
    ensures { MatchOption result (74 ≤ place_of line.now) (LabelOf line.now) }
{
    let mut text = [0u8; FRONT_MAX];
    for place in 0..PLACES {
        let next = put_front(&mut text, 0, place);
        if line.starts_with(&text[..next]) {
            return Some(Labelled { place, next });
        }
    }
    None
}

// A line of a survey, without its line feed; None where it is none of a survey's.
pub fn read_count(line: &[u8]) -> Option<Count>
    ensures { CountRead line.now result }
{
    let found = find_label(line)?;
    let number = parse_number(&line[found.next..]);
    if number.refusal.is_refused() {
        return None;
    }
    Some(Count {
        count: number.value,
        place: found.place,
    })
}

// Adds to the count of a place. Where there is no such place, or the sum would pass 64 bits, the totals stay.
#[tactic(auto, unfolding(crate::specs::Sums::add_count))]
pub fn add_count(totals: &mut [u64], place: usize, count: u64) -> bool
    ensures { CountAdded (totals.old, place, count) (result, totals.new) }
{
    match totals.get(place).and_then(|total| total.checked_add(count)) {
        Some(sum) => {
            totals[place] = sum;
            true
        }
        None => false,
    }
}

// Adds counts, each to a place of its own, from a place on.
fn add_each(totals: &mut [u64], from: usize, counts: &[u32]) -> bool
    requires { from + length counts.now < 2 ^ 64 }
    ensures { (result, totals.new) ≡ add_each totals.old from counts.now }
{
    let mut all = true;
    for (i, count) in counts.iter().enumerate() {
        all &= add_count(totals, from + i, *count as u64);
    }
    all
}

// Adds what a survey counted in a run of lines.
#[tactic(auto, unfolding(crate::specs::Sums::add_run))]
pub fn add_run(totals: &mut [u64], counts: &[u32], refused: [u32; VALUE_NUMBERS], none: u64) -> bool
    ensures { RunAdded (totals.old, counts.now, refused, none) (result, totals.new) }
{
    let classes = add_each(totals, 0, counts);
    let refusals = add_each(totals, CLASSES, &refused);
    let lines = add_count(totals, NO_NUMBER, none);
    classes && refusals && lines
}
