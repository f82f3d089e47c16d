// A value on each line of standard input: the listing or the refusal of each, named where there are more than one. What is said of a line is
// promised by `listing_reply`; here lines of any length are read and replies are written, through fixed buffers. A line is one whole number, or with
// `--remarks` begins with one (#107). With a second option, `--strict` or `--nested`, values are read strictly (#110). With a third, `--sheet`, the texts are those of the sheet
// that the command hands on in the fourth place, and of the standard sheet (#112).
#![tactic(auto)]

ghost use Rattle.std.specs.Prelude.{◌≡◌, ◌≤◌, length};

use line_reader::{Rest, line_number, rest_asked};
use listing_reply::{put_listing_reply, put_listing_with_reply};
use number::{Number, NumberState};
use std::io::{Read, Stdin};
use std::rt::Env;
use strict::{Profile, profile_asked};

// The longest sheet: bytes past its length are not read.
const SHEET: usize = 65537;

// The sheets that the texts come from, the workshop's asked first.
#[derive(Clone, Copy)]
struct Sheets<'a> {
    workshop: &'a [u8],
    standard: &'a [u8],
}

// What the options ask for. Without sheets the texts are the project's own.
#[derive(Clone, Copy)]
struct Asked<'a> {
    rest: Rest,
    profile: Profile,
    sheets: Option<Sheets<'a>>,
}

// Where a run stands between two parts of its input: the line that is being read, how many lines have ended, whether
// more than one line is known of, so that lines are named, and whether the first one has ended and waits to be answered.
#[derive(Clone, Copy)]
struct Standing {
    line: NumberState,
    count: u64,
    named: bool,
    held: bool,
}

impl Standing {
    // Whether a line is still to be answered: one that is held, or a last one without a line feed that has a byte.
    fn is_left(self) -> bool {
        self.held || self.line.is_open()
    }

    // The number of the last line among the lines; 0 where it is the only one, which has no name.
    // Kept as a number, no Option: `ListingReply` and `ListingWithReply` take line 0 for the only one.
    fn last_number(self) -> u64 {
        if self.named {
            return self.count.wrapping_add(1);
        }
        0
    }
}

impl Asked<'_> {
    fn put_reply(self, buf: &mut [u8], at: usize, line: u64, number: Number) -> usize {
        match self.sheets {
            Some(Sheets { workshop, standard }) => {
                put_listing_with_reply(buf, at, self.profile, line, number, workshop, standard)
            }
            None => put_listing_reply(buf, at, self.profile, line, number),
        }
    }

    // Puts the reply to a line after what is held. Where the buffer ends within it, what is held is written, and the
    // reply is put at the front.
    fn reply(self, buf: &mut [u8], at: usize, line: u64, state: NumberState) -> usize {
        let number = line_number(state, self.rest);
        let end = self.put_reply(buf, at, line, number);
        if end <= buf.len() {
            return end;
        }
        streams::flush(buf, at);
        self.put_reply(buf, 0, line, number)
    }

    // Answers the line that is held, now that more follows it.
    fn answer_held(self, from: Standing, buf: &mut [u8]) -> Standing {
        if !from.held {
            return from;
        }
        let at = self.reply(buf, 0, from.count, from.line);
        streams::flush(buf, at);
        Standing {
            line: NumberState::start(),
            named: true,
            held: false,
            ..from
        }
    }

    // Answers the lines that end in a part of the input, and hands on where the run stands.
    // Kept as a `while` (no plainer): each turn takes a line, which the data ends.
    // Kept beside the loop of `cli` (rule of the project): one function for both would be told by its caller what to
    // reply, and a public function asks nothing of its caller and promises all that it gives. Both share `take_line`.
    #[tactic(auto, using(line_reader::proofs::Laws::part_moved))]
    fn answer_part(self, from: Standing, part: &[u8], buf: &mut [u8]) -> Standing {
        let mut standing = Standing {
            held: false,
            ..from
        };
        let mut next: usize = 0;
        let mut at: usize = 0;
        while next < part.len() {
            let taken = line_reader::take_line(standing.line, part, next);
            standing.line = taken.state;
            next = taken.next;
            if taken.ended {
                standing.count = standing.count.wrapping_add(1);
                standing.named = standing.named || next < part.len();
                standing.held = !standing.named;
                if standing.named {
                    at = self.reply(buf, at, standing.count, standing.line);
                    standing.line = NumberState::start();
                }
            }
        }
        streams::flush(buf, at);
        standing
    }

    fn answer_last(self, standing: Standing, buf: &mut [u8]) {
        if !standing.is_left() {
            return;
        }
        let end = self.reply(buf, 0, standing.last_number(), standing.line);
        streams::flush(buf, end);
    }

    // A proved loop has to end, and nothing says that an input does: it makes more reads than any run uses up.
    fn answer_all(self, mut stdin: Stdin, part: &mut [u8], buf: &mut [u8]) {
        let mut standing = Standing {
            line: NumberState::start(),
            count: 0,
            named: false,
            held: false,
        };
        'reads: for _ in 0..u64::MAX {
            let got = streams::got(stdin.read(part).ok());
            let n = streams::count_read(got, part);
            if n == 0 {
                self.answer_last(standing, buf);
                return;
            }
            let held = self.answer_held(standing, buf);
            standing = self.answer_part(held, &part[0..n], buf);
        }
    }
}

fn sheet_room() -> [u8; SHEET]
    ensures { 65537 ≡ length result }
{
    [0; SHEET]
}

// The standard sheet, and its end: it is far shorter than the buffer.
fn write_standard(standard: &mut [u8]) -> usize
    ensures { result ≤ length standard.new }
{
    sheets::standard_sheet(standard)
        .unwrap_or(0)
        .min(standard.len())
}

fn main(rt: HostRuntime) {
    let mut part = io::large_buffer();
    let mut buf = io::large_buffer();
    let mut workshop = sheet_room();
    let mut standard = io::large_buffer();
    let mut option = [0u8; 16];
    let n = streams::copied(rt.arg(1, &mut option).ok(), &option);
    let rest = rest_asked(&option[0..n]);
    let k = streams::copied(rt.arg(2, &mut option).ok(), &option);
    let profile = profile_asked(&option[0..k]);
    let m = streams::copied(rt.arg(3, &mut option).ok(), &option);
    let with_sheets = words::is_word(&option[0..m], b"--sheet");
    let w = streams::copied(rt.arg(4, &mut workshop).ok(), &workshop);
    let s = write_standard(&mut standard);
    let sheets = Sheets {
        workshop: &workshop[0..w],
        standard: &standard[0..s],
    };
    let asked = Asked {
        rest,
        profile,
        sheets: if with_sheets { Some(sheets) } else { None },
    };
    asked.answer_all(rt.stdin(), &mut part, &mut buf);
}
