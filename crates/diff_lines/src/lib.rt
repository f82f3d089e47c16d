// The lines of two readings side by side, in a lent buffer from an offset on: those of a record under a mark, and those
// of a row whose record differs (#114).
#![tactic(auto)]

ghost use Rattle.buffer.specs.Appending.{Appends};
ghost use Rattle.diff_lines.specs.Lines.{front_at, text_or, texts_line, text_under, values_line};
ghost use Rattle.diff_lines.specs.Promises.{ChangedLines, MarkedLines};

use buffer::{put_bytes, put_code};
use records::Record;

// The index of the first record of ISS's own.
const OWN: usize = 5;

#[tactic(auto, unfolding(crate::specs::Lines::text_or, texts::specs::Pool::bytes))]
fn put_text_or(buf: &mut [u8], at: usize, code: u16) -> usize
    ensures { Appends (text_or code) (at, buf.old) (result, buf.new) }
{
    if code == 0 {
        return put_bytes(buf, at, b"-");
    }
    put_code(buf, at, code)
}

// What a line begins with: the mark, and the indent that the listing gives the record of this index.
#[derive(Clone, Copy)]
struct Line<'a> {
    mark: &'a [u8],
    index: usize,
}

impl Line<'_> {
    fn put_front(self, buf: &mut [u8], at: usize) -> usize
        ensures { Appends (front_at self.entry.mark.now self.entry.index) (at, buf.old) (result, buf.new) }
    {
        let next = put_bytes(buf, at, self.mark);
        if self.index < OWN {
            return next;
        }
        put_bytes(buf, next, b"  ")
    }

    // No text has no line.
    #[tactic(auto, using(buffer::proofs::Appending::none), unfolding(crate::specs::Lines::text_under))]
    fn put_text_under(self, buf: &mut [u8], at: usize, code: u16) -> usize
        ensures { Appends (text_under self.entry.mark.now self.entry.index code) (at, buf.old) (result, buf.new) }
    {
        if code == 0 {
            return at;
        }
        let mut next = self.put_front(buf, at);
        next = put_bytes(buf, next, b"# ");
        next = put_code(buf, next, code);
        put_bytes(buf, next, b"\n")
    }

    fn put_values(self, buf: &mut [u8], at: usize, x: Record, y: Record) -> usize
        ensures { Appends (values_line self.entry.mark.now self.entry.index x y) (at, buf.old) (result, buf.new) }
    {
        let mut next = self.put_front(buf, at);
        next = put_code(buf, next, x.name);
        next = put_bytes(buf, next, b": ");
        next = strings::put_field(buf, next, x.width, x.value);
        next = put_bytes(buf, next, b" | ");
        next = strings::put_field(buf, next, y.width, y.value);
        put_bytes(buf, next, b"\n")
    }

    fn put_both_texts(self, buf: &mut [u8], at: usize, one: u16, two: u16) -> usize
        ensures { Appends (texts_line self.entry.mark.now self.entry.index one two) (at, buf.old) (result, buf.new) }
    {
        let mut next = self.put_front(buf, at);
        next = put_bytes(buf, next, b"# ");
        next = put_text_or(buf, next, one);
        next = put_bytes(buf, next, b" | ");
        next = put_text_or(buf, next, two);
        put_bytes(buf, next, b"\n")
    }
}

// A record's lines as the listing has them, each after a mark.
pub fn put_marked(buf: &mut [u8], at: usize, mark: &[u8], index: usize, item: Record) -> usize
    ensures { MarkedLines (buf.old, at, mark.now, index, item) (result, buf.new) }
{
    let line = Line { mark, index };
    let mut next = line.put_front(buf, at);
    next = put_code(buf, next, item.name);
    next = put_bytes(buf, next, b": ");
    next = strings::put_field(buf, next, item.width, item.value);
    next = put_bytes(buf, next, b"\n");
    line.put_text_under(buf, next, item.text)
}

// A row that both readings have, with both values and, if either has a text, both texts.
pub fn put_changed(
    buf: &mut [u8],
    at: usize,
    mark: &[u8],
    index: usize,
    first: Record,
    second: Record,
) -> usize
    ensures { ChangedLines (buf.old, at, mark.now, index, first, second) (result, buf.new) }
{
    let line = Line { mark, index };
    let next = line.put_values(buf, at, first, second);
    if (first.text == 0) & (second.text == 0) {
        return next;
    }
    line.put_both_texts(buf, next, first.text, second.text)
}
