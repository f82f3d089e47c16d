// The Rust's Display of a record, and the listing of a set of records, in a lent buffer from an offset on. Names come
// from a pool that is lent, so that a caller fetches it once; texts from the pool too, or from two phrase sheets (#112).
#![tactic(auto)]

ghost use Rattle.std.specs.Prelude.{◌+◌, ◌≡◌};
ghost use Rattle.buffer.specs.Appending.{Appends};
ghost use Rattle.display.specs.Listings.{indent_at, listing_with, record_lines_with, text_line_with};
ghost use Rattle.display.specs.Promises.{LinePut, ListingPut, ListingWithPut};
ghost use Rattle.display.specs.Sources.{bytes_there, names_by, texts_by};
ghost use Rattle.phrases.specs.Sheets.{InSheet};
ghost use Rattle.records.specs.Sets.{list_of};

use buffer::{put_bytes, put_text};
use phrases::{Found, Sheet};
use records::{Record, Records};

// A record's line, without its line feed.
pub fn put_line(buf: &mut [u8], at: usize, pool: &[u8], starts: &[u16], item: Record) -> usize
    ensures { LinePut (buf.old, at, pool.now, starts.now, item) (result, buf.new) }
{
    let a = put_text(buf, at, pool, starts, item.name);
    let b = put_bytes(buf, a, b": ");
    strings::put_field(buf, b, item.width, item.value)
}

fn put_indent(buf: &mut [u8], at: usize, index: usize) -> usize
    ensures { Appends (indent_at index) (at, buf.old) (result, buf.new) }
{
    if index < 5 {
        return at;
    }
    put_bytes(buf, at, b"  ")
}

// Where the texts of a listing come from: two phrase sheets and, if it is own, the pool, which has the names too.
#[derive(Clone, Copy)]
struct Words<'a> {
    pool: &'a [u8],
    starts: &'a [u16],
    workshop: &'a [u8],
    standard: &'a [u8],
    own: bool,
}

fn put_phrase(buf: &mut [u8], at: usize, words: Words, found: Found) -> usize
    requires { InSheet words.workshop.now words.standard.now found }
    ensures { Appends (bytes_there words.entry.workshop.now words.entry.standard.now found) (at, buf.old) (result, buf.new) }
{
    let start = found.start;
    let count = found.count;
    match found.sheet {
        Sheet::Workshop => put_bytes(buf, at, &words.workshop[start..start + count]),
        Sheet::Standard => put_bytes(buf, at, &words.standard[start..start + count]),
    }
}

// A text that is found nowhere is left out with its line.
fn put_text_line(buf: &mut [u8], at: usize, words: Words, index: usize, code: u16) -> usize
    ensures { Appends (text_line_with (texts_by words.entry) index code) (at, buf.old) (result, buf.new) }
{
    if code == 0 {
        return at;
    }
    let found = phrases::find(words.workshop, words.standard, code);
    if found.is_none() && !words.own {
        return at;
    }
    let a = put_indent(buf, at, index);
    let b = put_bytes(buf, a, b"# ");
    let c = match found {
        Some(phrase) => put_phrase(buf, b, words, phrase),
        None => put_text(buf, b, words.pool, words.starts, code),
    };
    put_bytes(buf, c, b"\n")
}

fn put_record(buf: &mut [u8], at: usize, words: Words, index: usize, item: Record) -> usize
    ensures { Appends (record_lines_with (names_by words.entry) (texts_by words.entry) index item) (at, buf.old) (result, buf.new) }
{
    let a = put_indent(buf, at, index);
    let b = put_line(buf, a, words.pool, words.starts, item);
    let c = put_bytes(buf, b, b"\n");
    put_text_line(buf, c, words, index, item.text)
}

// The one listing. decode never counts more records than a set has room for. Of a set that counts more, every slot is
// shown.
fn put_records(buf: &mut [u8], at: usize, words: Words, records: Records) -> usize
    ensures { Appends (listing_with (names_by words.entry) (texts_by words.entry) (list_of records)) (at, buf.old) (result, buf.new) }
{
    let mut next = at;
    for i in 0..records.count.min(Records::MAX) {
        next = put_record(buf, next, words, i, records.items[i]);
    }
    next
}

pub fn put_listing(
    buf: &mut [u8],
    at: usize,
    pool: &[u8],
    starts: &[u16],
    records: Records,
) -> usize
    ensures { ListingPut (buf.old, at, pool.now, starts.now, records) (result, buf.new) }
{
    let none = &pool[0..0];
    let words = Words {
        pool,
        starts,
        workshop: none,
        standard: none,
        own: true,
    };
    put_records(buf, at, words, records)
}

// With the texts of two sheets, which the caller has judged, in place of the pool's.
// Kept: two sheets, which `ListingWithPut` names one by one; inside they travel in `Words`.
pub fn put_listing_with(
    buf: &mut [u8],
    at: usize,
    pool: &[u8],
    starts: &[u16],
    workshop: &[u8],
    standard: &[u8],
    records: Records,
) -> usize
    ensures { ListingWithPut (buf.old, at, pool.now, starts.now, workshop.now, standard.now, records) (result, buf.new) }
{
    let words = Words {
        pool,
        starts,
        workshop,
        standard,
        own: false,
    };
    put_records(buf, at, words, records)
}
