// The C functions: each calls a function of the crates below and tells its answer in numbers, a refusal as its number, what it carries, and the start
// and width of the field that it names.
// `include/esr.h` declares them.
#![tactic(auto)]

ghost use Rattle.std.specs.Prelude.{◌≤◌, length, cond, ◌≡◌};
ghost use Rattle.capi.specs.Answers.{filled_of, phrase_answer, sheet_number, survey_answer};
ghost use Rattle.capi.specs.Buffers.{front, filled_by};
ghost use Rattle.capi.specs.Words.{decoding, judged_filling};
ghost use Rattle.capi.specs.Promises.{BinaryFilled, RecordsFilled, EntryAnswered, LineFilled, ListingFilled, MakeAnswered, MessageFilled, NumberAnswered, ReadAnswered, StrictlyFilled, SurveyAnswered, TextFilled, ValueFilled, WalkAnswered, ListingWithFilled, PhraseAnswered, SheetFilled};
ghost use Rattle.refusals.specs.Refusals.{passed};
ghost use Rattle.texts.specs.Pool.{bytes_at};

use entry::Entry;
use phrases::{Found, Sheet};
use refusals::{Reason, Refusal};
use strict::{Profile, decode_by};
use survey::Tally;
use walk::Walked;

// Kept in the answers below (the C interface): a refusal in numbers beside what is answered, and the sheet's number.

// How many slots or bytes the front of the caller's array now holds; none on a refusal.
#[repr(C)]
#[derive(Clone, Copy)]
pub struct Filled {
    pub carried: u64,
    pub count: usize,
    pub refusal: u8,
    pub start: u8,
    pub width: u8,
}

// A number that was read, or a value that was made.
#[repr(C)]
#[derive(Clone, Copy)]
pub struct NumberAnswer {
    pub value: u64,
    pub carried: u64,
    pub refusal: u8,
    pub start: u8,
    pub width: u8,
}

// The bytes that the number took stand at the front of the caller's own; what follows them is the caller's to judge (#107).
#[repr(C)]
#[derive(Clone, Copy)]
pub struct ReadAnswer {
    pub value: u64,
    pub carried: u64,
    pub taken: usize,
    pub refusal: u8,
    pub start: u8,
    pub width: u8,
}

// The body is given by its offset in the caller's own block: where it starts, and how many bytes it has.
#[repr(C)]
#[derive(Clone, Copy)]
pub struct EntryAnswer {
    pub esr: u64,
    pub carried: u64,
    pub body: usize,
    pub length: usize,
    pub sequence: u16,
    pub refusal: u8,
    pub start: u8,
    pub width: u8,
}

// Where a walk ended, and the number of the refusal of the bad entry that ended it, which carries and names nothing.
#[repr(C)]
#[derive(Clone, Copy)]
pub struct WalkAnswer {
    pub carried: u64,
    pub entries: usize,
    pub decoded: usize,
    pub offset: usize,
    pub ended: u8,
    pub refusal: u8,
    pub start: u8,
    pub width: u8,
}

// How many values each of the refusals 1 to 7 refused, in their order.
#[repr(C)]
#[derive(Clone, Copy)]
pub struct SurveyAnswer {
    pub carried: u64,
    pub refused: [u32; 7],
    pub refusal: u8,
    pub start: u8,
    pub width: u8,
}

// The phrase is given by the sheet that has it, 0 where neither has, and by its offset there (#112).
#[repr(C)]
#[derive(Clone, Copy)]
pub struct PhraseAnswer {
    pub carried: u64,
    pub offset: usize,
    pub length: usize,
    pub sheet: u8,
    pub refusal: u8,
    pub start: u8,
    pub width: u8,
}

// The bytes of an entry's length, which stand before its body.
const LENGTH_BYTES: usize = 2;

fn filled_of(refusal: Refusal, count: usize) -> Filled
    ensures { result ≡ filled_of refusal count }
{
    Filled {
        carried: refusal.carries,
        count,
        refusal: refusal.number(),
        start: refusal.start,
        width: refusal.width,
    }
}

// What a function of `written`, `listing` or `sheets` wrote, or refused.
fn filled_by_text(written: Result<usize, Refusal>) -> Filled
    ensures { result ≡ filled_by written }
{
    match written {
        Ok(bytes) => filled_of(Refusal::NONE, bytes),
        Err(refusal) => filled_of(refusal, 0),
    }
}

// The records of a value that was judged: none where it is refused, else each written once, into the caller's own slots.
fn fill(judged: Result<(), Refusal>, esr: u64, slots: &mut [[u64; 2]]) -> Filled
    ensures { (result, slots.new) ≡ judged_filling judged esr slots.old }
{
    if let Err(refusal) = judged {
        return filled_of(refusal, 0);
    }
    let count = engine::slots::put_records(esr, slots);
    if slots.len() < count {
        return filled_of(Refusal::carrying(Reason::ShortBuffer, count as u64), 0);
    }
    filled_of(Refusal::NONE, count)
}

#[unsafe(no_mangle)]
pub extern "C" fn esr_decode(esr: u64, slots: &mut [[u64; 2]]) -> Filled
    ensures { RecordsFilled (esr, slots.old) (result, slots.new) }
{
    fill(engine::judge(esr), esr, slots)
}

fn fill_by(profile: Profile, esr: u64, slots: &mut [[u64; 2]]) -> Filled
    ensures { (result, slots.new) ≡ decoding profile esr slots.old }
{
    let answer = decode_by(profile, esr);
    fill(answer.refusal.check(), esr, slots)
}

// Any number but 0 says that the core has nested virtualisation.
#[unsafe(no_mangle)]
pub extern "C" fn esr_decode_strict(esr: u64, nested: u8, slots: &mut [[u64; 2]]) -> Filled
    ensures { StrictlyFilled (esr, nested, slots.old) (result, slots.new) }
{
    if nested == 0 {
        return fill_by(Profile::Strict, esr, slots);
    }
    fill_by(Profile::Nested, esr, slots)
}

fn write_text(code: u16, buf: &mut [u8])
    requires { length (bytes_at code) ≤ length buf.old }
    ensures { buf.new ≡ front (bytes_at code) buf.old }
{
    buffer::put_code(buf, 0, code);
}

#[unsafe(no_mangle)]
pub extern "C" fn esr_text(code: u16, buf: &mut [u8]) -> Filled
    ensures { TextFilled (code, buf.old) (result, buf.new) }
{
    let length = lookup::length_of(code) as usize;
    if buf.len() < length {
        return filled_of(Refusal::carrying(Reason::ShortBuffer, length as u64), 0);
    }
    write_text(code, buf);
    filled_of(Refusal::NONE, length)
}

#[unsafe(no_mangle)]
pub extern "C" fn esr_value_string(width: u64, value: u64, buf: &mut [u8]) -> Filled
    ensures { ValueFilled (width, value, buf.old) (result, buf.new) }
{
    filled_by_text(written::value_string(width, value, buf))
}

#[unsafe(no_mangle)]
pub extern "C" fn esr_value_binary_string(width: u64, value: u64, buf: &mut [u8]) -> Filled
    ensures { BinaryFilled (width, value, buf.old) (result, buf.new) }
{
    filled_by_text(written::value_binary_string(width, value, buf))
}

#[unsafe(no_mangle)]
pub extern "C" fn esr_message(
    number: u64,
    carried: u64,
    start: u64,
    width: u64,
    buf: &mut [u8],
) -> Filled
    ensures { MessageFilled (number, carried, start, width, buf.old) (result, buf.new) }
{
    filled_by_text(written::message(number, carried, start, width, buf))
}

#[unsafe(no_mangle)]
pub extern "C" fn esr_record_line(esr: u64, index: usize, buf: &mut [u8]) -> Filled
    ensures { LineFilled (esr, index, buf.old) (result, buf.new) }
{
    filled_by_text(listing::record_line(esr, index, buf))
}

#[unsafe(no_mangle)]
pub extern "C" fn esr_listing(esr: u64, buf: &mut [u8]) -> Filled
    ensures { ListingFilled (esr, buf.old) (result, buf.new) }
{
    filled_by_text(listing::listing(esr, buf))
}

// Kept (the C interface): two sheets, each lent by itself.
#[unsafe(no_mangle)]
pub extern "C" fn esr_listing_with(
    esr: u64,
    workshop: &[u8],
    standard: &[u8],
    buf: &mut [u8],
) -> Filled
    ensures { ListingWithFilled (esr, workshop.now, standard.now, buf.old) (result, buf.new) }
{
    filled_by_text(listing::listing_with(esr, workshop, standard, buf))
}

#[unsafe(no_mangle)]
pub extern "C" fn esr_standard_sheet(buf: &mut [u8]) -> Filled
    ensures { SheetFilled buf.old (result, buf.new) }
{
    filled_by_text(sheets::standard_sheet(buf))
}

// What C is told of the sheet that has a phrase: 0 is that none has one.
fn sheet_number(sheet: Sheet) -> u8
    ensures { result ≡ sheet_number sheet }
{
    match sheet {
        Sheet::Workshop => 1,
        Sheet::Standard => 2,
    }
}

fn phrase_answer(refusal: Refusal, found: Option<Found>) -> PhraseAnswer
    ensures { result ≡ phrase_answer refusal found }
{
    let (offset, length, sheet) = match found {
        Some(phrase) => (phrase.start, phrase.count, sheet_number(phrase.sheet)),
        None => (0, 0, 0),
    };
    PhraseAnswer {
        carried: refusal.carries,
        offset,
        length,
        sheet,
        refusal: refusal.number(),
        start: refusal.start,
        width: refusal.width,
    }
}

// Kept (the C interface): two sheets, each lent by itself.
#[unsafe(no_mangle)]
pub extern "C" fn esr_phrase(workshop: &[u8], standard: &[u8], code: u16) -> PhraseAnswer
    ensures { PhraseAnswered (workshop.now, standard.now, code) result }
{
    match phrases::sheets_refusal(workshop, standard) {
        Ok(()) => phrase_answer(Refusal::NONE, phrases::find(workshop, standard, code)),
        Err(refusal) => phrase_answer(refusal, None),
    }
}

#[unsafe(no_mangle)]
pub extern "C" fn esr_parse_number(s: &[u8]) -> NumberAnswer
    ensures { NumberAnswered s.now result }
{
    let number = number::parse_number(s);
    let refusal = number.refusal;
    NumberAnswer {
        value: number.value,
        carried: refusal.carries,
        refusal: refusal.number(),
        start: refusal.start,
        width: refusal.width,
    }
}

#[unsafe(no_mangle)]
#[tactic(auto, unfolding(crate::specs::Answers::read_answer))]
pub extern "C" fn esr_read_number(s: &[u8]) -> ReadAnswer
    ensures { ReadAnswered s.now result }
{
    match number::read_number(s) {
        Ok(read) => ReadAnswer {
            value: read.value,
            carried: 0,
            taken: read.taken,
            refusal: 0,
            start: 0,
            width: 0,
        },
        Err(refusal) => ReadAnswer {
            value: 0,
            carried: refusal.carries,
            taken: 0,
            refusal: refusal.number(),
            start: refusal.start,
            width: refusal.width,
        },
    }
}

// Where the body starts in the block: after the length's bytes, where there is one.
fn body_start(refusal: Refusal) -> usize
    ensures { result ≡ cond (passed refusal) 2 0 }
{
    if refusal.is_refused() {
        return 0;
    }
    LENGTH_BYTES
}

// The C interface: C gets numbers of 0 beside a refusal.
#[unsafe(no_mangle)]
pub extern "C" fn esr_read_entry(block: &[u8]) -> EntryAnswer
    ensures { EntryAnswered block.now result }
{
    let read = entry::read_entry(block);
    let numbers = read.unwrap_or(Entry {
        esr: 0,
        sequence: 0,
    });
    let refusal = read.err().unwrap_or(Refusal::NONE);
    let body = entry::entry_body(block);
    EntryAnswer {
        esr: numbers.esr,
        carried: refusal.carries,
        body: body_start(refusal),
        length: body.len(),
        sequence: numbers.sequence,
        refusal: refusal.number(),
        start: refusal.start,
        width: refusal.width,
    }
}

#[unsafe(no_mangle)]
pub extern "C" fn esr_walk(block: &[u8], steps: &mut [u16]) -> WalkAnswer
    ensures { WalkAnswered (block.now, steps.old) (result, steps.new) }
{
    let answer = walk::walk(Profile::Ordinary, block, steps);
    let walked = answer.unwrap_or(Walked {
        entries: 0,
        decoded: 0,
        offset: 0,
        ended: None,
    });
    let refusal = answer.err().unwrap_or(Refusal::NONE);
    let ended = walked.ended.unwrap_or(Refusal::NONE);
    WalkAnswer {
        carried: refusal.carries,
        entries: walked.entries,
        decoded: walked.decoded,
        offset: walked.offset,
        ended: ended.number(),
        refusal: refusal.number(),
        start: refusal.start,
        width: refusal.width,
    }
}

#[unsafe(no_mangle)]
pub extern "C" fn esr_make(class: u64, il: u64, iss2: u64, leaves: &[u64]) -> NumberAnswer
    ensures { MakeAnswered (class, il, iss2, leaves.now) result }
{
    match maker::make(class, il, iss2, leaves) {
        Ok(value) => NumberAnswer {
            value,
            carried: 0,
            refusal: 0,
            start: 0,
            width: 0,
        },
        Err(refusal) => NumberAnswer {
            value: 0,
            carried: refusal.carries,
            refusal: refusal.number(),
            start: refusal.start,
            width: refusal.width,
        },
    }
}

fn survey_answer(answer: Result<Tally, Refusal>) -> SurveyAnswer
    ensures { result ≡ survey_answer answer }
{
    match answer {
        Ok(tally) => SurveyAnswer {
            carried: 0,
            refused: tally.ordinary(),
            refusal: 0,
            start: 0,
            width: 0,
        },
        Err(refusal) => SurveyAnswer {
            carried: refusal.carries,
            refused: [0; 7],
            refusal: refusal.number(),
            start: refusal.start,
            width: refusal.width,
        },
    }
}

#[unsafe(no_mangle)]
pub extern "C" fn esr_survey(values: &[u64], counts: &mut [u32]) -> SurveyAnswer
    ensures { SurveyAnswered (values.now, counts.old) (result, counts.new) }
{
    survey_answer(survey::survey(Profile::Ordinary, values, counts))
}
