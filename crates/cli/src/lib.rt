// What the programs for machines read and write: lines of any length, through fixed buffers. What they say of a line is promised by
// `records_reply`; they differ in the kind of reply alone, so the reading of the input stands here. The caller says what is done with what stands behind a
// number (#107).
#![tactic(auto)]

ghost use Rattle.cli.specs.Promises.{Answered};
ghost use Rattle.std.specs.Prelude.{◌≡◌};

use line_reader::Rest;
use number::{Number, NumberState};
use records_reply::{put_number_reply, put_records_reply};
use std::io::{Read, Stdin};
use strict::Profile;

// What a program says of each line.
#[derive(Clone, Copy)]
pub enum Kind {
    // `ok 0xH` or `refused N`.
    Number,
    // A canonical block, its value read by a profile (#110).
    Records(Profile),
}

fn put_reply(kind: Kind, buf: &mut [u8], at: usize, number: Number) -> usize {
    match kind {
        Kind::Number => return put_number_reply(buf, at, number),
        Kind::Records(profile) => return put_records_reply(buf, at, profile, number),
    }
}

// Puts a reply after what is held. Where the buffer ends within it, what is held is written, and the reply is put at the front.
fn reply(kind: Kind, buf: &mut [u8], at: usize, number: Number) -> usize {
    let end = put_reply(kind, buf, at, number);
    if end <= buf.len() {
        return end;
    }
    streams::flush(buf, at);
    put_reply(kind, buf, 0, number)
}

// Answers the lines that end in a part of the input, and hands on the line that does not.
// Kept beside the loop of `esr_listing` (rule of the project): one function for both would be told by its caller what to
// reply, and a public function asks nothing of its caller and promises all that it gives. Both share `take_line`.
#[tactic(auto, using(line_reader::proofs::Laws::part_moved))]
fn answer_part(
    kind: Kind,
    rest: Rest,
    from: NumberState,
    part: &[u8],
    buf: &mut [u8],
) -> NumberState {
    let mut line = from;
    let mut next: usize = 0;
    let mut at: usize = 0;
    // Kept, no plainer: each line gives the next offset.
    while next < part.len() {
        let taken = line_reader::take_line(line, part, next);
        line = taken.state;
        next = taken.next;
        if taken.ended {
            at = reply(kind, buf, at, line_reader::line_number(line, rest));
            line = NumberState::start();
        }
    }
    streams::flush(buf, at);
    line
}

// A last line without a line feed is one if it has a byte.
fn answer_last(kind: Kind, rest: Rest, line: NumberState, buf: &mut [u8]) -> usize
    ensures { result ≡ 0 }
{
    if !line.is_open() {
        return 0;
    }
    let end = reply(kind, buf, 0, line_reader::line_number(line, rest));
    streams::flush(buf, end)
}

// A proved loop has to end, and nothing says that an input does: it makes more reads than any run uses up.
fn answer_all(kind: Kind, rest: Rest, mut stdin: Stdin, part: &mut [u8], buf: &mut [u8]) -> usize
    ensures { result ≡ 0 }
{
    let mut line = NumberState::start();
    'reads: for _ in 0..u64::MAX {
        let got = streams::got(stdin.read(part).ok());
        let n = streams::count_read(got, part);
        if n == 0 {
            return answer_last(kind, rest, line, buf);
        }
        line = answer_part(kind, rest, line, &part[0..n], buf);
    }
    0
}

// Answers each line of standard input. The answer is how many bytes of what it said are still held.
pub fn answer(kind: Kind, rest: Rest, stdin: Stdin) -> usize
    ensures { Answered (kind, rest) result }
{
    let mut part = io::large_buffer();
    let mut buf = io::large_buffer();
    answer_all(kind, rest, stdin, &mut part, &mut buf)
}
