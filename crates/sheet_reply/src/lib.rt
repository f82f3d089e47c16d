// What `esr sheet` writes (#112): the standard sheet in lines to translate, a sheet made of such lines, one at a time,
// and why a line is refused.
#![tactic(auto)]

ghost use Rattle.std.specs.Prelude.{◌-◌, ◌≤◌, drop, length};
ghost use Rattle.buffer.specs.Appending.{Appends};
ghost use Rattle.phrases.specs.Writing.{phrase_bytes};
ghost use Rattle.sheet_reply.specs.Promises.{FaultPut, HeadPut, IsFault, LineAdded, LinesPut};
ghost use Rattle.sheet_reply.specs.Replies.{fault_words};

use buffer::put_bytes;
use digits::{Base, put_number};
use sheet_lines::Fault;
use texts::pool;

const VERSION: u8 = 1;

// So many bytes of phrases a sheet can count: its length counts the version too. The phrases of all codes have fewer,
// whatever their texts (`never_full`).
const PHRASES_MAX: usize = 65534;

// The next offset among the phrases, and the code that the next line must have at least.
#[derive(Clone, Copy)]
pub struct Added {
    pub next: usize,
    pub least: u32,
}

// Every line of the standard sheet.
pub fn put_lines(buf: &mut [u8], at: usize) -> usize
    ensures { LinesPut (buf.old, at) (result, buf.new) }
{
    let mut next = at;
    for code in pool::BIT_FIRST..pool::COUNT as u16 {
        next = sheet_lines::put_code_line(buf, next, code);
    }
    next
}

// Whether a line is refused.
#[tactic(auto, unfolding(crate::specs::Replies::is_fault))]
pub fn is_fault(fault: Fault) -> bool
    ensures { IsFault fault result }
{
    fault != Fault::None
}

// A phrase whose text is the rest of a line.
fn put_phrase(buf: &mut [u8], at: usize, line: &[u8], start: usize, code: u16) -> usize
    requires { (start ≤ length line.now) × (length line.now - start ≤ 255) }
    ensures { Appends (phrase_bytes (code, drop start line.now)) (at, buf.old) (result, buf.new) }
{
    let [high, low] = code.to_be_bytes();
    let head = [high, low, (line.len() - start) as u8];
    let a = put_bytes(buf, at, &head);
    put_bytes(buf, a, &line[start..])
}

// Puts the phrase of a line after those before it, which end at this offset; a line that is refused puts nothing. Its
// fault is never `None`.
pub fn add_line(buf: &mut [u8], at: usize, line: &[u8], least: u32) -> Result<Added, Fault>
    ensures { LineAdded (buf.old, at, line.now, least) (result, buf.new) }
{
    let taken = sheet_lines::take_line(line, least)?;
    let next = put_phrase(buf, at, line, taken.start, taken.code);
    Ok(Added {
        next,
        least: u32::from(taken.code) + 1,
    })
}

// The length and the version of a sheet whose phrases have so many bytes; nothing where they are too many.
pub fn put_head(buf: &mut [u8], at: usize, count: usize) -> usize
    ensures { HeadPut (buf.old, at, count) (result, buf.new) }
{
    if PHRASES_MAX < count {
        return at;
    }
    let following = 1 + count;
    let [high, low] = (following as u16).to_be_bytes();
    let head = [high, low, VERSION];
    put_bytes(buf, at, &head)
}

fn put_words(buf: &mut [u8], at: usize, fault: Fault) -> usize
    ensures { Appends (fault_words fault) (at, buf.old) (result, buf.new) }
{
    match fault {
        Fault::None => put_bytes(buf, at, b"it is a phrase\n"),
        Fault::NoCode => put_bytes(buf, at, b"it begins with no number\n"),
        Fault::NoText => put_bytes(buf, at, b"no text has this code\n"),
        Fault::NotRising => put_bytes(buf, at, b"its code is not above the one before it\n"),
        Fault::TooLong => put_bytes(buf, at, b"its text has more than 255 bytes\n"),
    }
}

// Why the line of this number is refused.
pub fn put_fault(buf: &mut [u8], at: usize, line: u64, fault: Fault) -> usize
    ensures { FaultPut (buf.old, at, line, fault) (result, buf.new) }
{
    let a = put_bytes(buf, at, b"refused: line ");
    let b = put_number(buf, a, Base::Decimal, line);
    let c = put_bytes(buf, b, b": ");
    put_words(buf, c, fault)
}
