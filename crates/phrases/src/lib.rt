// Reads phrase sheets (#112): whether a sheet is sound, and where the phrase of a code lies in two sheets, the workshop's asked first. Bytes past
// a sheet's length are not read.
#![tactic(auto)]

ghost use Rattle.std.specs.Prelude.{◌+◌, ◌-◌, ◌<◌, ◌≤◌, length, ◌≡◌};
ghost use Rattle.entry.specs.Entries.{lent};
ghost use Rattle.phrases.specs.Promises.{Finds, HasPhrase, Phrase, SheetRefusal, SheetsRefusal};
ghost use Rattle.phrases.specs.Sheets.{body_of, fault, Front, in_sheet, judged, phrases_of, place_in, sound_unless, window, word_at};

use refusals::{Reason, Refusal};

const VERSION: u8 = 1;

// Where the first phrase stands: after two bytes of length and the version.
const FIRST: usize = 3;

// Where a phrase of one sheet lies: its bytes are start .. start + count of the sheet.
// Kept as two numbers (C interface), here and in `Found`: `esr_phrase` answers them, and `Finds` promises a `Found`.
#[derive(Clone, Copy)]
pub struct Place {
    pub start: usize,
    pub count: usize,
}

impl Place {
    fn of(self, sheet: Sheet) -> Found
        ensures { result ≡ in_sheet sheet self }
    {
        Found {
            start: self.start,
            count: self.count,
            sheet,
        }
    }
}

// The sheets that a phrase can come from.
#[derive(Clone, Copy, PartialEq, Eq)]
pub enum Sheet {
    Workshop,
    Standard,
}

// Where a phrase of two sheets lies: which sheet has it, and its bytes there.
#[derive(Clone, Copy)]
pub struct Found {
    pub start: usize,
    pub count: usize,
    pub sheet: Sheet,
}

// A two-byte number, big-endian.
fn word(s: &[u8], at: usize) -> u16
    requires { at + 1 < length s.now }
    ensures { result ≡ word_at s.now at }
{
    u16::from_be_bytes([s[at], s[at + 1]])
}

// The phrase at an offset, its code and its place, where the phrases end at another; or why it is refused.
fn phrase_at(sheet: &[u8], at: usize, end: usize) -> Result<(u16, Place), Reason>
    requires { (at < end) × (end ≤ length sheet.now) }
    ensures { Front sheet.now at end result }
{
    if end - at < 3 {
        return Err(Reason::ShortSheet);
    }
    let count = sheet[at + 2] as usize;
    let start = at + 3;
    if end - start < count {
        return Err(Reason::LongPhrase);
    }
    Ok((word(sheet, at), Place { start, count }))
}

// Phrase by phrase: why the phrases are refused that end at this offset.
fn judge_phrases(sheet: &[u8], end: usize) -> Result<(), Reason>
    requires { (3 ≤ end) × (end ≤ length sheet.now) }
    ensures { result ≡ sound_unless (fault 0 (phrases_of 3 (window 3 end sheet.now))) }
{
    let mut least: u32 = 0;
    let mut at = FIRST;
    // No plainer: how far a turn goes on stands in the sheet.
    while at < end {
        let (code, place) = phrase_at(sheet, at, end)?;
        if (code as u32) < least {
            return Err(Reason::CodeNotRising);
        }
        least = code as u32 + 1;
        at = place.start + place.count;
    }
    Ok(())
}

fn judge(sheet: &[u8]) -> Result<(), Reason>
    ensures { result ≡ sound_unless (judged sheet.now) }
{
    if sheet.len() < 2 {
        return Err(Reason::ShortSheet);
    }
    let length = word(sheet, 0) as usize;
    if length == 0 {
        return Err(Reason::ShortSheet);
    }
    if sheet.len() < 2 + length {
        return Err(Reason::ShortSheet);
    }
    if sheet[2] != VERSION {
        return Err(Reason::BadSheetVersion);
    }
    judge_phrases(sheet, 2 + length)
}

// Why a sheet is refused, by 26 to 29, if it is.
pub fn sheet_refusal(sheet: &[u8]) -> Result<(), Refusal>
    ensures { SheetRefusal sheet.now result }
{
    judge(sheet).map_err(|reason| Refusal::carrying(reason, 0))
}

// The workshop's sheet first, and wholly.
// Kept: two sheets, which `SheetsRefusal` names one by one, as C lends them to `esr_phrase`.
pub fn sheets_refusal(workshop: &[u8], standard: &[u8]) -> Result<(), Refusal>
    ensures { SheetsRefusal (workshop.now, standard.now) result }
{
    sheet_refusal(workshop)?;
    sheet_refusal(standard)
}

// Where the phrases of a sheet end: as far as its length says, and no farther than it goes.
fn end_of(sheet: &[u8]) -> usize
    ensures { (result ≤ length sheet.now) × (body_of sheet.now ≡ window 3 result sheet.now) }
{
    if sheet.len() < FIRST {
        return 0;
    }
    let said = 2 + word(sheet, 0) as usize;
    if sheet.len() < said {
        return sheet.len();
    }
    said
}

fn look(sheet: &[u8], code: u16) -> Option<Place>
    ensures { result ≡ place_in sheet.now code }
{
    let end = end_of(sheet);
    let mut at = FIRST;
    // No plainer: how far a turn goes on stands in the sheet.
    while at < end {
        let Ok((here, place)) = phrase_at(sheet, at, end) else {
            return None;
        };
        if here == code {
            return Some(place);
        }
        at = place.start + place.count;
    }
    None
}

// For a caller that has judged the sheets, as a listing has, which looks many codes up. Of a sheet that is refused the
// phrases count that stand before the first broken one.
// Kept: two sheets, which `Finds` names one by one.
pub fn find(workshop: &[u8], standard: &[u8], code: u16) -> Option<Found>
    ensures { Finds (workshop.now, standard.now, code) result }
{
    if let Some(place) = look(workshop, code) {
        return Some(place.of(Sheet::Workshop));
    }
    let place = look(standard, code)?;
    Some(place.of(Sheet::Standard))
}

// Whether a code has a phrase, which may be empty. Of sheets that are refused none has.
// Kept: two sheets, which `HasPhrase` names one by one.
pub fn has_phrase(workshop: &[u8], standard: &[u8], code: u16) -> bool
    ensures { HasPhrase (workshop.now, standard.now, code) result }
{
    sheets_refusal(workshop, standard).is_ok() && find(workshop, standard, code).is_some()
}

// The phrase as a part of the sheet that it came from; an empty part where there is none.
// Kept: two sheets, which `Phrase` names one by one.
pub fn phrase<'a>(workshop: &'a [u8], standard: &'a [u8], code: u16) -> &'a [u8]
    ensures { Phrase (lent workshop.entry, lent standard.entry, code) (lent result) }
{
    if sheets_refusal(workshop, standard).is_err() {
        return &workshop[0..0];
    }
    let Some(found) = find(workshop, standard, code) else {
        return &workshop[0..0];
    };
    let start = found.start;
    let count = found.count;
    match found.sheet {
        Sheet::Workshop => &workshop[start..start + count],
        Sheet::Standard => &standard[start..start + count],
    }
}
