// The fields of a value that can be set, and which of them a word means: by its name, or by the number of its lowest bit
// (#114).
#![tactic(auto)]

ghost use Rattle.std.specs.Prelude.{◌≤◌, ◌≡◌};
ghost use Rattle.texts.specs.Pool.{bytes_at};
ghost use Rattle.turn_fields.specs.Fields.{bit_place, count_of, fields_of, meant, one_more, seek_in};
ghost use Rattle.turn_fields.specs.Promises.{FieldCount, FieldRow, Find};
ghost use Rattle.number.specs.Rest.{whole_of};
ghost use Rattle.words.specs.Words.{same};

use engine::top;
use records::Row;

// ISS2, EC and IL come before ISS's own.
const ABOVE: usize = 3;

// How many fields are meant, and the index of the last of them.
// Kept beside `Several`: `Find` says both, and the edit `turn_last_of_several` is of them.
#[derive(Clone, Copy, PartialEq, Eq)]
pub struct Place {
    pub count: usize,
    pub index: usize,
}

// No field is meant, the one of an index, or more than one.
#[derive(Clone, Copy, PartialEq, Eq)]
pub enum Found {
    Nowhere,
    Once(usize),
    Several(Place),
}

// Kept as a count, and fields by an index: `FieldCount` and `FieldRow` say so, and there is no heap for a list of them.
pub fn field_count(esr: u64) -> usize
    ensures { FieldCount esr result }
{
    let number = esr::layout_number(records::field(esr, 26, 6));
    leaf_values::leaf_count(number, records::field(esr, 0, 25)) + ABOVE
}

// The field of an index, from high bits to low.
pub fn field_row(esr: u64, index: usize) -> Row
    ensures { FieldRow (esr, index) result }
{
    match index {
        0 => top::ISS2,
        1 => top::EC,
        2 => top::IL,
        _ => {
            let number = esr::layout_number(records::field(esr, 26, 6));
            leaf_values::leaf_row(number, records::field(esr, 0, 25), index - ABOVE)
        }
    }
}

// Whether a word is the text of a code.
fn is_text(code: u16, word: &[u8]) -> bool
    ensures { result ≡ same (bytes_at code) word.now }
{
    let pool: &[u8] = texts::pool_bytes();
    let starts: &[u16] = texts::text_starts();
    let n = lookup::length_in(starts, code) as usize;
    // A code past the last start has no bytes, and is not looked up.
    if n == 0 {
        return words::is_word(b"", word);
    }
    let from = starts[code as usize] as usize;
    words::is_word(&pool[from..from + n], word)
}

// What a field is meant by: its name, or the number of its lowest bit.
#[derive(Clone, Copy)]
enum Meant<'a> {
    Name(&'a [u8]),
    Bit(u64),
}

impl Meant<'_> {
    // Whether it is that of a row.
    fn is_of(self, row: Row) -> bool
        ensures { result ≡ meant self.entry row }
    {
        match self {
            Meant::Name(word) => is_text(row.name as u16, word),
            Meant::Bit(bit) => row.start as u64 == bit,
        }
    }
}

// One more is meant, or not.
fn and_one(found: Found, hit: bool, index: usize) -> Found
    requires { count_of found ≤ 64 }
    ensures { result ≡ one_more hit index found }
{
    if !hit {
        return found;
    }
    match found {
        Found::Nowhere => Found::Once(index),
        Found::Once(_) => Found::Several(Place { count: 2, index }),
        Found::Several(place) => Found::Several(Place {
            count: place.count + 1,
            index,
        }),
    }
}

fn seek(esr: u64, by: Meant) -> Found
    ensures { result ≡ seek_in (meant by.entry) (fields_of esr) }
{
    let mut found = Found::Nowhere;
    for i in 0..field_count(esr) {
        found = and_one(found, by.is_of(field_row(esr, i)), i);
    }
    found
}

// What a word means as a number.
fn by_bit(esr: u64, word: &[u8]) -> Found
    ensures { result ≡ bit_place esr word.now (whole_of word.now) }
{
    let number = number::parse_number(word);
    let refusal = number.refusal;
    if refusal.is_refused() {
        return Found::Nowhere;
    }
    seek(esr, Meant::Bit(number.value))
}

// A name goes before a number.
pub fn find(esr: u64, word: &[u8]) -> Found
    ensures { Find (esr, word.now) result }
{
    match seek(esr, Meant::Name(word)) {
        Found::Nowhere => by_bit(esr, word),
        found => found,
    }
}
