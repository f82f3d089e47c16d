// What surveys said, added up: lines of their outputs on standard input, and one survey of all (#101). What a line says, and the sums, are promised by `survey_reply`;
// here lines are read and the survey is written, through fixed buffers. A line that cannot be added is told, with its number, and the others are added all the same.
#![tactic(auto)]

use std::io::{Read, Stdin};
use streams::STDERR;
use survey_reply::PLACES;

// Longer than any line of a survey.
const LINE: usize = 64;

// How many lines that cannot be added are told: a file that is no survey has many.
const TOLD_MAX: u64 = 10;

// Where the run stands between two parts of the input: how many bytes of the line came, how many lines have ended, and how many more are told if they cannot be added.
#[derive(Clone, Copy)]
struct Standing {
    held: usize,
    lines: u64,
    left: u64,
}

// Tells of a line that cannot be added, if any more are told, and how many are after it.
fn tell(left: u64, line: u64, what: &[u8]) -> u64 {
    if left == 0 {
        return 0;
    }
    let mut text = io::buffer();
    let mut at = buffer::put_bytes(&mut text, 0, b"esr: line ");
    at = digits::put_number(&mut text, at, digits::Base::Decimal, line);
    at = buffer::put_bytes(&mut text, at, what);
    io::write_all(STDERR, &text[..at.min(text.len())]);
    if left == 1 {
        io::write_all(STDERR, b"esr: no further line is told\n");
    }
    left - 1
}

// Adds the count of a line, of which this much is held, or tells that it cannot be added; answers how many lines are still told.
fn add_line(line: &[u8], held: usize, number: u64, left: u64, totals: &mut [u64]) -> u64 {
    if line.len() < held {
        return tell(left, number, b" is none of a survey's\n");
    }
    let Some(count) = survey_reply::read_count(&line[..held]) else {
        return tell(left, number, b" is none of a survey's\n");
    };
    if !survey_reply::add_count(totals, count.place, count.count) {
        return tell(
            left,
            number,
            b" takes a count past 64 bits, and is left out\n",
        );
    }
    left
}

// Adds the lines that end in a part of the input, and holds the line that does not.
fn add_part(from: Standing, part: &[u8], line: &mut [u8], totals: &mut [u64]) -> Standing {
    let mut held = from.held;
    let mut lines = from.lines;
    let mut left = from.left;
    let mut next: usize = 0;
    // No plainer: each turn goes on behind the line feed that the last one found.
    while next < part.len() {
        let end = line_reader::line_end(part, next);
        held = buffer::put_bytes(line, held, &part[next..end]);
        if part.len() <= end {
            return Standing { held, lines, left };
        }
        lines = lines.wrapping_add(1);
        left = add_line(line, held, lines, left, totals);
        held = 0;
        next = end + 1;
    }
    Standing { held, lines, left }
}

// A last line without a line feed is one if it has a character.
fn add_last(standing: Standing, line: &[u8], totals: &mut [u64]) {
    if 0 < standing.held {
        let number = standing.lines.wrapping_add(1);
        add_line(line, standing.held, number, standing.left, totals);
    }
}

// A proved loop has to end, and nothing says that an input does: no run uses up this number of reads.
fn add_surveys(mut stdin: Stdin, part: &mut [u8], line: &mut [u8], totals: &mut [u64]) {
    let mut standing = Standing {
        held: 0,
        lines: 0,
        left: TOLD_MAX,
    };
    'reads: for _ in 0..u64::MAX {
        let got = streams::got(stdin.read(part).ok());
        let n = streams::count_read(got, part);
        if n == 0 {
            add_last(standing, line, totals);
            return;
        }
        standing = add_part(standing, &part[..n], line, totals);
    }
}

fn main(rt: HostRuntime) {
    let mut part = io::large_buffer();
    let mut line = [0u8; LINE];
    let mut totals = [0u64; PLACES];
    add_surveys(rt.stdin(), &mut part, &mut line, &mut totals);
    let mut text = io::buffer();
    let end = survey_reply::put_survey(&mut text, 0, &totals, true);
    streams::flush(&text, end);
}
