// The answers of the number readers and of the entry reader to many inputs, as standard input asks for them; each run of equal answers is one
// line, its count in front. An answer shows every number of it and every byte, refused or not; the numbers of a refusal
// are put here, as they are for C: the readers give none.
//
// A request: what to make, the least and the greatest length of an input (three bytes each), how many bytes follow (two), and the bytes.
//   'w'  whole numbers: every word of these bytes
//   'f'  numbers at the front (#107): the same
//   'n'  whole numbers: what begins with these bytes and goes on with 0xFF, of each length
//   'e'  entries: the same
#![tactic(auto)]

ghost use Rattle.std.specs.Prelude.{◌≡◌, ◌<◌, length};

use buffer::put_bytes;
use digits::{Base, put_number};
use entry::Entry;
use number::NumberRead;
use refusals::Refusal;
use streams::{STDIN, STDOUT};

const HEAD: usize = 9;

// The longest input: an entry of the greatest length, and a byte more.
const LONGEST: usize = 65538;

// The longest word, and more words than are asked for.
const LETTERS: usize = 8;

const WORDS: u64 = 0x1000000;

const WIDTH: usize = 64;

// Kept, a length beside the bytes (rule of the project): there is no heap, and a line goes by value from run to run.
#[derive(Clone, Copy)]
struct Line {
    bytes: [u8; WIDTH],
    length: usize,
}

#[derive(Clone, Copy)]
struct Run {
    line: Line,
    count: u64,
}

fn say_run(run: Run) {
    if run.count == 0 {
        return;
    }
    io::print_decimal(STDOUT, run.count);
    io::write_all(STDOUT, b" ");
    let line = run.line;
    let bytes = line.bytes;
    streams::flush(&bytes, line.length);
    io::write_all(STDOUT, b"\n");
}

fn with_line(run: Run, line: Line) -> Run {
    let last = run.line;
    let before = last.bytes;
    let now = line.bytes;
    if check::same(&before, &now) {
        return Run {
            line,
            count: run.count.wrapping_add(1),
        };
    }
    say_run(run);
    Run { line, count: 1 }
}

fn wide(byte: u8) -> u64
    ensures { result < 256 }
{
    byte as u64
}

// What every answer begins with: the refusal and a number.
fn put_head(buf: &mut [u8], refusal: Refusal, number: u64) -> usize {
    let mut at = put_number(buf, 0, Base::Decimal, refusal.number() as u64);
    at = put_bytes(buf, at, b" ");
    put_number(buf, at, Base::Hex, number)
}

fn number_line(text: &[u8]) -> Line {
    let number = number::parse_number(text);
    let mut bytes = [0u8; WIDTH];
    let at = put_head(&mut bytes, number.refusal, number.value);
    Line { bytes, length: at }
}

fn front_line(text: &[u8]) -> Line {
    let answer = number::read_number(text);
    let read = answer.unwrap_or(NumberRead { value: 0, taken: 0 });
    let refusal = answer.err().unwrap_or(Refusal::NONE);
    let mut bytes = [0u8; WIDTH];
    let mut at = put_head(&mut bytes, refusal, read.value);
    at = put_bytes(&mut bytes, at, b" ");
    at = put_number(&mut bytes, at, Base::Decimal, read.taken as u64);
    Line { bytes, length: at }
}

// Each byte after a space.
fn put_each(buf: &mut [u8], from: usize, bytes: &[u8]) -> usize {
    let mut at = from;
    for byte in bytes {
        at = put_bytes(buf, at, b" ");
        at = put_number(buf, at, Base::Hex, wide(*byte));
    }
    at
}

fn entry_line(block: &[u8]) -> Line {
    let read = entry::read_entry(block);
    let entry = read.unwrap_or(Entry {
        esr: 0,
        sequence: 0,
    });
    let refusal = read.err().unwrap_or(Refusal::NONE);
    let body = entry::entry_body(block);
    let mut bytes = [0u8; WIDTH];
    let mut at = put_head(&mut bytes, refusal, entry.sequence as u64);
    at = put_bytes(&mut bytes, at, b" ");
    at = put_number(&mut bytes, at, Base::Hex, entry.esr);
    at = put_each(&mut bytes, at, body);
    Line { bytes, length: at }
}

fn line_of(kind: u8, part: &[u8]) -> Line {
    if kind == b'e' {
        return entry_line(part);
    }
    if kind == b'f' {
        return front_line(part);
    }
    number_line(part)
}

// The letters are counted round and round.
fn letter(letters: &[u8], index: u64) -> u8 {
    if letters.len() == 0 {
        return 0;
    }
    letters[(index % letters.len() as u64) as usize]
}

// Puts the word of an index at the end of a text, and answers what is left of the index: 0 for an index below the number of words.
fn spell(letters: &[u8], index: u64, text: &mut [u8]) -> u64 {
    if letters.len() == 0 {
        return 1;
    }
    let base = letters.len() as u64;
    let mut rest = index;
    for byte in text.iter_mut().rev() {
        *byte = letter(letters, rest);
        rest /= base;
    }
    rest
}

fn with_words(run: Run, kind: u8, letters: &[u8], text: &mut [u8]) -> Run {
    let mut next = run;
    for index in 0..WORDS {
        if spell(letters, index, text) != 0 {
            return next;
        }
        next = with_line(next, line_of(kind, text));
    }
    next
}

// Every word of each length. Kept, lengths without a slice: each has a text of its own.
fn with_lengths(run: Run, kind: u8, letters: &[u8], least: usize, greatest: usize) -> Run {
    let mut next = run;
    for length in least..=greatest.min(LETTERS) {
        let mut text = [0u8; LETTERS];
        next = with_words(next, kind, letters, &mut text[0..length]);
    }
    next
}

fn with_parts(run: Run, kind: u8, block: &[u8], least: usize, greatest: usize) -> Run {
    let mut next = run;
    for length in least..=greatest.min(block.len()) {
        let line = line_of(kind, &block[0..length]);
        next = with_line(next, line);
    }
    next
}

fn lay(block: &mut [u8], bytes: &[u8]) {
    for (i, byte) in block.iter_mut().enumerate() {
        *byte = bytes.get(i).copied().unwrap_or(0xFF);
    }
}

fn room() -> [u8; LONGEST]
    ensures { 65538 ≡ length result }
{
    [0; LONGEST]
}

// The number of at most three bytes, highest first.
fn number_at(s: &[u8], from: usize, to: usize) -> usize {
    let mut number: u64 = 0;
    for i in from..to.min(s.len()) {
        number = number % 0x10000 * 0x100 + wide(s[i]);
    }
    number as usize
}

fn with_request(run: Run, head: &[u8], bytes: &[u8], block: &mut [u8]) -> Run {
    let least = number_at(head, 1, 4);
    let greatest = number_at(head, 4, 7);
    if head.len() == 0 {
        return run;
    }
    let kind = head[0];
    if kind == b'w' || kind == b'f' {
        return with_lengths(run, kind, bytes, least, greatest);
    }
    if block.len() < greatest {
        return run;
    }
    lay(&mut block[0..greatest], bytes);
    with_parts(run, kind, block, least, greatest)
}

fn answer(requests: &[u8], block: &mut [u8]) -> Run {
    let mut run = Run {
        line: Line {
            bytes: [0; WIDTH],
            length: 0,
        },
        count: 0,
    };
    let mut at: usize = 0;
    // Kept, no plainer: each request says how long it is.
    while at < requests.len() {
        if requests.len() - at < HEAD {
            return run;
        }
        let start = at + HEAD;
        let count = number_at(&requests[at..start], 7, 9);
        if requests.len() - start < count {
            return run;
        }
        let end = start + count;
        run = with_request(run, &requests[at..start], &requests[start..end], block);
        at = end;
    }
    run
}

fn main() {
    let mut requests = io::large_buffer();
    let n = io::read_full(STDIN, &mut requests);
    let mut block = room();
    say_run(answer(&requests[0..n], &mut block));
}
