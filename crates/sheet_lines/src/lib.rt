// The standard sheet in lines to translate, a code and its text to a line, and such a line read back as a phrase
// (#112).
#![tactic(auto)]

ghost use Rattle.std.specs.Prelude.{◌≤◌, length, ◌≡◌};
ghost use Rattle.sheet_lines.specs.Lines.{text_start};
ghost use Rattle.sheet_lines.specs.Promises.{CodeLinePut, LineTaken};

use buffer::{put_bytes, put_code};
use digits::Base;

// Why a line is no phrase.
#[derive(Clone, Copy, PartialEq, Eq)]
pub enum Fault {
    // Kept: `is_fault` and `put_fault` promise an answer for it (`IsFault`, `FaultPut`)
    None,
    // it begins with no number
    NoCode,
    // the number is no code of the standard sheet
    NoText,
    // it is not above the one before it
    NotRising,
    // the text behind it has more than 255 bytes
    TooLong,
}

// The text is the rest of the line, from start on.
#[derive(Clone, Copy)]
pub struct Taken {
    pub start: usize,
    pub code: u16,
}

const LONGEST: usize = 255;

// The line of a code; none where the standard sheet has not the code.
pub fn put_code_line(buf: &mut [u8], at: usize, code: u16) -> usize
    ensures { CodeLinePut (buf.old, at, code) (result, buf.new) }
{
    let number = u64::from(code);
    if !sheets::is_records(number) {
        return at;
    }
    let a = digits::put_number(buf, at, Base::Decimal, number);
    let b = put_bytes(buf, a, b" ");
    let c = put_code(buf, b, code);
    put_bytes(buf, c, b"\n")
}

// Where the text begins: behind the byte that ends the number, if there is one.
fn text_start(line: &[u8], taken: usize) -> usize
    requires { taken ≤ length line.now }
    ensures { (result ≡ text_start line.now taken) × (result ≤ length line.now) }
{
    line.len().min(taken + 1)
}

// A line as a phrase, whose code must be this at least: above the code of the line before. Its fault is never `None`.
#[tactic(auto, unfolding(crate::specs::Lines::taken_of))]
pub fn take_line(line: &[u8], least: u32) -> Result<Taken, Fault>
    ensures { LineTaken (line.now, least) result }
{
    let Ok(read) = number::read_number(line) else {
        return Err(Fault::NoCode);
    };
    if !sheets::is_records(read.value) {
        return Err(Fault::NoText);
    }
    if read.value < u64::from(least) {
        return Err(Fault::NotRising);
    }
    let start = text_start(line, read.taken);
    if LONGEST < line.len() - start {
        return Err(Fault::TooLong);
    }
    Ok(Taken {
        start,
        code: read.value as u16,
    })
}
