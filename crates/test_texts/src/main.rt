// Every text function at work. Standard input has a value to a line: of each, its listing or its refusal with the message, the line of each
// record and of two indices past the last, and the two value strings of each record. Then, once, value strings and messages at and past
// the ends of what is accepted. Each call is made again in buffers of five lengths, which are parts of a room full of one byte: what is
// answered, and what the whole room then holds, has to follow from the text or the refusal that was printed.
#![tactic(auto)]

ghost use Rattle.std.specs.Prelude.{◌≡◌, length};

use number::{Number, NumberState};
use records::{Record, Records};
use refusals::{Reason, Refusal};
use streams::{STDIN, STDOUT};

// Longer than any listing by more than MORE: a part of it that a call wants and it has not counts as wrong.
const ROOM: usize = 4096;

const MORE: usize = 2048;

// Where a call is refused there is no text to go by, and the lengths lie around this one.
const NO_TEXT: usize = 32;

// Stands in no text.
const SENTINEL: u8 = 0xFF;

// What a message is asked for by.
#[derive(Clone, Copy)]
struct Asked {
    number: u64,
    carried: u64,
    start: u64,
    width: u64,
}

impl Asked {
    fn of(refusal: Refusal) -> Self {
        Self {
            number: refusal.number() as u64,
            carried: refusal.carries,
            start: refusal.start as u64,
            width: refusal.width as u64,
        }
    }
}

// A function, and what it is called with.
#[derive(Clone, Copy)]
enum Call {
    Listing { esr: u64 },
    RecordLine { esr: u64, index: usize },
    Message(Asked),
    Value { width: u64, value: u64 },
    Binary { width: u64, value: u64 },
}

// The bytes written, or the refusal.
type Answer = Result<usize, Refusal>;

fn made(call: Call, buf: &mut [u8]) -> Answer {
    match call {
        Call::Listing { esr } => listing::listing(esr, buf),
        Call::RecordLine { esr, index } => listing::record_line(esr, index, buf),
        Call::Message(asked) => {
            written::message(asked.number, asked.carried, asked.start, asked.width, buf)
        }
        Call::Value { width, value } => written::value_string(width, value, buf),
        Call::Binary { width, value } => written::value_binary_string(width, value, buf),
    }
}

fn room() -> [u8; ROOM]
    ensures { 4096 ≡ length result }
{
    [SENTINEL; ROOM]
}

// What a call answers in a buffer of a length, given what it answers in a whole room. Kept as a length, here and below:
// the buffer is the front of a room, and what is told is how the whole room stands.
fn answer_in(whole: Answer, length: usize) -> Answer {
    let bytes = whole?;
    if length < bytes {
        return Err(Refusal::carrying(Reason::ShortBuffer, bytes as u64));
    }
    Ok(bytes)
}

// Whether a call in a buffer of a length answered and left what it must, the buffer being the front of an untouched
// room: what it left of a whole room, or nothing where the text is longer than the buffer. Past a buffer of exactly the
// text's length nothing is written, so that a room that is left as that one has the text and no other byte.
fn is_right(
    answer: Answer,
    bytes: &[u8; ROOM],
    whole: Answer,
    left: &[u8; ROOM],
    length: usize,
) -> bool {
    let is_left = if length < whole.unwrap_or(0) {
        check::same(bytes, &room())
    } else {
        check::same(bytes, left)
    };
    is_left && answer == answer_in(whole, length)
}

// How many buffers were tried, and how many of them were wrong.
#[derive(Clone, Copy)]
struct Tally {
    buffers: u64,
    wrong: u64,
}

fn counted(tally: Tally, is_right: bool) -> Tally {
    Tally {
        buffers: tally.buffers.wrapping_add(1),
        wrong: tally.wrong.wrapping_add(!is_right as u64),
    }
}

fn tried(tally: Tally, call: Call, whole: Answer, left: &[u8; ROOM], length: usize) -> Tally {
    if ROOM < length {
        return counted(tally, false);
    }
    let mut bytes = room();
    let answer = made(call, &mut bytes[0..length]);
    counted(tally, is_right(answer, &bytes, whole, left, length))
}

fn exact_length(whole: Answer) -> usize {
    match whole {
        Ok(0) | Err(_) => NO_TEXT,
        Ok(bytes) => bytes,
    }
}

// Length 0, one short, exact, one more and much more.
fn with_lengths(tally: Tally, call: Call, whole: Answer, left: &[u8; ROOM]) -> Tally {
    let exact = exact_length(whole);
    let short = exact.wrapping_sub(1);
    let over = exact.wrapping_add(1);
    let far_over = exact.wrapping_add(MORE);
    let mut next = tried(tally, call, whole, left, 0);
    next = tried(next, call, whole, left, short);
    next = tried(next, call, whole, left, exact);
    next = tried(next, call, whole, left, over);
    tried(next, call, whole, left, far_over)
}

fn say(text: &[u8]) {
    io::write_all(STDOUT, text);
}

fn end_line() {
    say(b"\n");
}

fn space() {
    say(b" ");
}

fn say_number(name: &[u8], number: u64) {
    say(name);
    io::print_decimal(STDOUT, number);
}

fn say_hex(name: &[u8], number: u64) {
    say(name);
    io::print_hex(STDOUT, number, 1);
}

fn say_index(index: usize) {
    io::print_decimal(STDOUT, index as u64);
    space();
}

fn say_asked(name: &[u8], asked: Asked) {
    say_number(name, asked.number);
    say_hex(b" carried=0x", asked.carried);
    say_number(b" start=", asked.start);
    say_number(b" width=", asked.width);
}

fn say_refusal(refusal: Refusal) {
    say_asked(b"refused ", Asked::of(refusal));
}

// Says what a call answers, the text or the refusal, and tries it in the buffers.
fn say_call(tally: Tally, call: Call) -> Tally {
    let mut bytes = room();
    let whole = made(call, &mut bytes);
    match whole {
        Ok(count) if ROOM < count => return counted(tally, false),
        Ok(count) => say(&bytes[0..count]),
        Err(refusal) => say_refusal(refusal),
    }
    with_lengths(tally, call, whole, &bytes)
}

fn say_ended(tally: Tally, call: Call) -> Tally {
    let next = say_call(tally, call);
    end_line();
    next
}

fn say_line(tally: Tally, esr: u64, index: usize) -> Tally {
    say_index(index);
    say_ended(tally, Call::RecordLine { esr, index })
}

// Kept as a count: the two lines past the last are asked for by their indices.
fn say_lines(tally: Tally, esr: u64, count: usize) -> Tally {
    let mut next = tally;
    for index in 0..count {
        next = say_line(next, esr, index);
    }
    next = say_line(next, esr, count);
    say_line(next, esr, usize::MAX)
}

fn say_strings(tally: Tally, width: u64, value: u64) -> Tally {
    let next = say_call(tally, Call::Value { width, value });
    space();
    say_ended(next, Call::Binary { width, value })
}

fn say_item(tally: Tally, index: usize, item: Record) -> Tally {
    say_index(index);
    say_strings(tally, item.width as u64, item.value)
}

fn say_values(tally: Tally, records: Records) -> Tally {
    let mut next = tally;
    for i in 0..records.count {
        next = say_item(next, i, records.at(i));
    }
    next
}

fn say_message(tally: Tally, asked: Asked) -> Tally {
    say_ended(tally, Call::Message(asked))
}

fn say_why(tally: Tally, refusal: Refusal) -> Tally {
    if !refusal.is_refused() {
        return tally;
    }
    say_message(tally, Asked::of(refusal))
}

fn say_records(tally: Tally, esr: u64) -> Tally {
    let answer = esr::decode(esr);
    let records = answer.records;
    let next = say_why(tally, answer.refusal);
    say_values(say_lines(next, esr, records.count), records)
}

fn say_value(tally: Tally, esr: u64) -> Tally {
    say_hex(b"> 0x", esr);
    end_line();
    say_records(say_ended(tally, Call::Listing { esr }), esr)
}

fn say_read(tally: Tally, read: Number) -> Tally {
    if !read.refusal.is_refused() {
        return say_value(tally, read.value);
    }
    say_refusal(read.refusal);
    end_line();
    tally
}

#[tactic(auto, using(line_reader::proofs::Laws::part_moved))]
fn say_given(tally: Tally, given: &[u8]) -> Tally {
    let mut next = tally;
    let mut at: usize = 0;
    // Kept, no plainer: each line gives the next offset.
    while at < given.len() {
        let line = line_reader::take_line(NumberState::start(), given, at);
        next = say_read(next, line.state.finish());
        at = line.next;
    }
    next
}

fn say_field(tally: Tally, width: u64, value: u64) -> Tally {
    say_number(b"width ", width);
    say_hex(b" value 0x", value);
    say(b": ");
    say_strings(tally, width, value)
}

// Kept, four numbers: no plainer, a struct of them would be written out in each of the calls below.
fn say_numbered(tally: Tally, number: u64, carried: u64, start: u64, width: u64) -> Tally {
    let asked = Asked {
        number,
        carried,
        start,
        width,
    };
    say_asked(b"message ", asked);
    say(b": ");
    say_message(tally, asked)
}

// The message of a reserved field of a width: at the top of the value, one bit past it, and with a value that is one too great.
fn say_named(tally: Tally, width: u64, ones: u64) -> Tally {
    let top = 64u64.wrapping_sub(width);
    let past = top.wrapping_add(1);
    let mut next = say_numbered(tally, 1, ones, top, width);
    next = say_numbered(next, 1, ones, past, width);
    say_numbered(next, 1, ones.wrapping_add(1), 0, width)
}

// Each width from 0 to past 64, with 0, the greatest value and one more; the greatest of 64 bits stays where a width is past them.
fn say_widths(tally: Tally) -> Tally {
    let mut next = tally;
    let mut ones: u64 = 0;
    for width in 0..67 {
        next = say_field(next, width, 0);
        next = say_field(next, width, ones);
        next = say_field(next, width, ones.wrapping_add(1));
        next = say_named(next, width, ones);
        ones = ones.wrapping_add(ones).wrapping_add(1);
    }
    next
}

// These widths would be accepted if their upper bits were cut off.
fn say_far_widths(tally: Tally) -> Tally {
    let mut next = say_field(tally, 0x108, 0);
    next = say_field(next, 0x100000008, 0);
    say_field(next, u64::MAX, 0)
}

fn say_message_ends(tally: Tally, number: u64) -> Tally {
    let next = say_numbered(tally, number, 0, 0, 1);
    say_numbered(next, number, u64::MAX, u64::MAX, u64::MAX)
}

fn say_messages(tally: Tally) -> Tally {
    let mut next = tally;
    for number in 0..18 {
        next = say_message_ends(next, number);
    }
    next
}

// These numbers too.
fn say_far_messages(tally: Tally) -> Tally {
    let mut next = say_message_ends(tally, 0x101);
    next = say_message_ends(next, 0x100000001);
    say_message_ends(next, u64::MAX)
}

// Bits that would be within the value if their sum wrapped, or if their upper bits were cut off.
fn say_far_bits(tally: Tally) -> Tally {
    let mut next = say_numbered(tally, 1, 0, u64::MAX, 1);
    next = say_numbered(next, 1, 0, 0xFFFFFFFFFFFFFFC0, 64);
    next = say_numbered(next, 1, 0, 0x100, 8);
    say_numbered(next, 1, 0, 8, 0x108)
}

fn say_tally(tally: Tally) {
    say_number(b"buffers ", tally.buffers);
    say_number(b" wrong ", tally.wrong);
    end_line();
}

fn main() {
    let mut given = io::large_buffer();
    let n = io::read_full(STDIN, &mut given);
    let none = Tally {
        buffers: 0,
        wrong: 0,
    };
    let mut tally = say_given(none, &given[0..n]);
    tally = say_far_widths(say_widths(tally));
    say_tally(say_far_bits(say_far_messages(say_messages(tally))));
}
