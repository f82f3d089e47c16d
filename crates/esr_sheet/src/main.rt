// The standard phrase sheet on standard output; with `--text` as lines of a code and its text, to translate; with
// `--from` the sheet that such lines of standard input make (#112). What is written is promised by `sheets` and
// `sheet_reply`; here lines are read and bytes written, through fixed buffers. The first line that is refused is told,
// and no sheet is written.
#![tactic(auto)]

use sheet_lines::Fault;
use std::io::{Read, Stdin};
use std::rt::Env;
use streams::STDERR;

// Where a run stands between two parts of its input: how many bytes of the line came, how many lines have ended, where
// the phrases end, and the code that the next line must have at least.
#[derive(Clone, Copy)]
struct Standing {
    held: usize,
    lines: u64,
    next: usize,
    least: u32,
}

// A line that is refused, by its number, and why.
#[derive(Clone, Copy)]
struct Refused {
    line: u64,
    fault: Fault,
}

// Prints nothing where `is_fault` says that there is no fault.
fn tell(refused: Refused) {
    if !sheet_reply::is_fault(refused.fault) {
        return;
    }
    let mut text = io::buffer();
    let end = sheet_reply::put_fault(&mut text, 0, refused.line, refused.fault);
    io::write_all(STDERR, &text[..end.min(4096)]);
}

// Takes the line that has ended, of which this much came. One that does not fit the buffer has far more than 255 bytes.
fn take_line(
    from: Standing,
    held: usize,
    line: &[u8],
    phrases: &mut [u8],
) -> Result<Standing, Refused> {
    let number = from.lines.wrapping_add(1);
    let why = |fault| Refused {
        line: number,
        fault,
    };
    let taken = line.get(..held).ok_or(why(Fault::TooLong))?;
    let added = sheet_reply::add_line(phrases, from.next, taken, from.least).map_err(why)?;
    Ok(Standing {
        held: 0,
        lines: number,
        next: added.next,
        least: added.least,
    })
}

// Takes the lines that end in a part of the input, as far as the first that is refused, and holds the line that does
// not.
fn take_part(
    from: Standing,
    part: &[u8],
    line: &mut [u8],
    phrases: &mut [u8],
) -> Result<Standing, Refused> {
    let mut standing = from;
    let mut next: usize = 0;
    // Kept: no plainer, each line gives the next offset
    while next < part.len() {
        let end = line_reader::line_end(part, next);
        let held = buffer::put_bytes(line, standing.held, &part[next..end]);
        if part.len() <= end {
            return Ok(Standing { held, ..standing });
        }
        standing = take_line(standing, held, line, phrases)?;
        next = end + 1;
    }
    Ok(standing)
}

// A last line without a line feed is one if it has a byte.
fn take_last(standing: Standing, line: &[u8], phrases: &mut [u8]) -> Result<Standing, Refused> {
    if standing.held == 0 {
        return Ok(standing);
    }
    take_line(standing, standing.held, line, phrases)
}

// A proved loop has to end, and nothing says that an input does: so many reads no run uses up.
fn take_lines(
    mut stdin: Stdin,
    part: &mut [u8],
    line: &mut [u8],
    phrases: &mut [u8],
) -> Result<Standing, Refused> {
    let mut standing = Standing {
        held: 0,
        lines: 0,
        next: 0,
        least: 0,
    };
    for _ in 0..u64::MAX {
        let got = streams::got(stdin.read(part).ok());
        let n = streams::count_read(got, part);
        if n == 0 {
            return take_last(standing, line, phrases);
        }
        standing = take_part(standing, &part[..n], line, phrases)?;
    }
    Ok(standing)
}

fn write_made(stdin: Stdin) {
    let mut part = io::large_buffer();
    let mut line = io::large_buffer();
    let mut phrases = io::large_buffer();
    match take_lines(stdin, &mut part, &mut line, &mut phrases) {
        Ok(made) => {
            let mut head = [0u8; 4];
            let end = sheet_reply::put_head(&mut head, 0, made.next);
            streams::flush(&head, end);
            streams::flush(&phrases, made.next);
        }
        Err(refused) => tell(refused),
    }
}

fn write_lines() {
    let mut buf = io::large_buffer();
    let end = sheet_reply::put_lines(&mut buf, 0);
    streams::flush(&buf, end);
}

fn write_standard() {
    let mut buf = io::large_buffer();
    let end = sheets::standard_sheet(&mut buf).unwrap_or(0);
    streams::flush(&buf, end);
}

fn main(rt: HostRuntime) {
    let mut word = [0u8; 8];
    let n = streams::copied(rt.arg(1, &mut word).ok(), &word);
    if words::is_word(&word[0..n], b"--text") {
        write_lines();
        return;
    }
    if words::is_word(&word[0..n], b"--from") {
        write_made(rt.stdin());
        return;
    }
    write_standard();
}
