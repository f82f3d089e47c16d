// The engine: a walk over packed rows of the one table, under the tests that an ISS passes. It knows no layout by name.
#![tactic(auto)]

ghost use Rattle.std.specs.Prelude.{◌<◌, T, ◌≡◌};
ghost use Rattle.engine.specs.Engine.{byte_of, direct, failure_from, failure_of, records_by, row_in, tops_of};
ghost use Rattle.engine.specs.Engine as engine;
ghost use Rattle.engine.specs.Promises.{Judged, Walked};
ghost use Rattle.engine_table.specs.Packed.{answers_of};
ghost use Rattle.records.specs.Bits.{field_of};
ghost use Rattle.records.specs.Rows.{record_of, value_in};
ghost use Rattle.records.specs.Sets.{records_of};
ghost use Rattle.refusals.specs.Refusals.{checked};
ghost use Rattle.tables.specs.Tables.{iss_under};
ghost use Rattle.texts.specs.Pool as pool;

use engine_table::{checks, places, rows, rules};
use records::{Mark, Record, Records, Row};
use refusals::{Reason, Refusal};
use texts::rules as r;

pub mod slots;
pub mod top;

fn byte(word: u64, at: u8) -> u8
    requires { at < 8 }
    ensures { result ≡ byte_of word at }
{
    records::field(word, 8 * at, 8) as u8
}

// The row of a packed number.
fn row_in(word: u64) -> Row
    ensures { result ≡ row_in word }
{
    Row {
        start: byte(word, 5),
        width: byte(word, 6),
        name: byte(word, 0),
        long: byte(word, 4),
        rule: byte(word, 3),
        kind: byte(word, 7),
    }
}

// Whether its conditions are met under these answers of the tests.
fn applies(answers: u64, word: u64) -> bool
    ensures { result ≡ engine.applies answers word }
{
    answers & records::field(word, 8, 8) == records::field(word, 16, 8)
}

fn bit(v: u64, position: u64) -> u64
    requires { position < 64 }
    ensures { (result ≡ field_of v position 1) × (result < 2) }
{
    (v >> position) & 1
}

// What an ISS answers to 01's tests, a bit to a test, worked out once for all rows: bits 24, 10 and 7 are 1; the status
// is 0x10, 0x11, external.
fn answers_of(iss: u64) -> u64
    ensures { result ≡ answers_of iss }
{
    let status = records::field(iss, 0, 6);
    let bits = bit(iss, 24) + 2 * bit(iss, 10) + 4 * bit(iss, 7);
    bits + 8 * bit(0x1_0000, status) + 16 * bit(0x2_0000, status) + 32 * bit(0xFD_0000, status)
}

// A row's field of a value. The rows of the table lie within 64 bits, so that nothing is tested.
fn value_in(word: u64, v: u64) -> u64
    requires { T (direct word) }
    ensures { result ≡ value_in v (row_in word) }
{
    let start = records::field(word, 40, 8);
    let width = records::field(word, 48, 8);
    (v >> start) & ((1 << width) - 1)
}

// Whether a rule has a text for a value.
fn describes(rule: u8, value: u64) -> bool
    ensures { result ≡ pool.describes rule value }
{
    lookup::has(rules::values_of(rule), value)
}

// Whether a row applies and its field is not as it asks.
fn fails(answers: u64, iss: u64, word: u64) -> bool
    requires { T (direct word) }
    ensures { result ≡ engine.fails answers iss word }
{
    applies(answers, word)
        && {
            let value = value_in(word, iss);
            match Mark::of_kind(byte(word, 7)) {
                Mark::Checked => value != 0,
                Mark::Coded => !describes(byte(word, 3), value),
                Mark::Free | Mark::Unchecked => false,
            }
        }
}

// What the first row that fails answers, in the order of the checks: the rows' indices are the bytes of a number.
fn first_failure(answers: u64, iss: u64, indices: u64, count: u8) -> Result<(), Refusal>
    ensures { result ≡ checked (failure_from answers iss indices count) }
{
    let mut rest = indices;
    for _ in 0..count {
        let word = rows::row_word(byte(rest, 0) as usize);
        if fails(answers, iss, word) {
            return row_in(word).refusal(iss).check();
        }
        rest = rest >> 8;
    }
    Ok(())
}

fn failure_of(class: u64, iss: u64) -> Result<(), Refusal>
    ensures { result ≡ checked (failure_of class iss) }
{
    let place = places::place_word(class);
    if place == 0 {
        return Err(Refusal::carrying(Reason::InvalidEc, class));
    }
    first_failure(
        answers_of(iss),
        iss,
        checks::check_word(class),
        byte(place, 3),
    )
}

// Why a value is refused, or that it is not.
pub fn judge(esr: u64) -> Result<(), Refusal>
    ensures { Judged esr result }
{
    if !top::RES0.meets(esr) {
        return Err(top::RES0.refusal(esr));
    }
    failure_of(records::field(esr, 26, 6), records::field(esr, 0, 25))
}

// A row's record of a value. The text is looked up by `lookup`: a second caller of `slots::text_code` would keep the
// compiler from putting that into the walk over slots, which costs more.
fn record_in(word: u64, v: u64) -> Record
    requires { T (direct word) }
    ensures { result ≡ record_of v (row_in word) }
{
    let value = value_in(word, v);
    Record {
        value,
        name: byte(word, 0) as u16,
        text: lookup::text_code(byte(word, 3), value),
        long: byte(word, 4),
        start: byte(word, 5),
        width: byte(word, 6),
        mark: Mark::of_kind(byte(word, 7)),
    }
}

// ISS itself, by the rule that the layout has for it.
fn iss_record(esr: u64, rule: u8) -> Record
    ensures { result ≡ record_of esr (iss_under rule) }
{
    if rule == r::PLAIN {
        return record_in(slots::ISS, esr);
    }
    Row { rule, ..top::ISS }.get(esr)
}

// Beside `slots::top_slots`, no plainer as one: five lines each, with records here and pairs of words there.
// The top records, ISS's under the rule that its layout has for it.
fn top_records(esr: u64, rule: u8) -> Records
    ensures { result ≡ records_of (tops_of esr rule) }
{
    let mut out = Records::empty();
    out.items[0] = record_in(slots::RES0, esr);
    out.items[1] = record_in(slots::ISS2, esr);
    out.items[2] = record_in(slots::EC, esr);
    out.items[3] = record_in(slots::IL, esr);
    out.items[4] = iss_record(esr, rule);
    out.count = 5;
    out
}

// The top records, then ISS's own from high bits to low, each written where it stays.
// Beside the walk of `slots::row_slots`, no plainer as one: what is shared is the head of the loop, and a closure for
// the rest would change what it captures, of which a proof keeps nothing.
fn all_records(esr: u64, class: u64, iss: u64) -> Records
    ensures { result ≡ records_of (records_by esr class iss) }
{
    let place = places::place_word(class);
    let answers = answers_of(iss);
    let mut out = top_records(esr, byte(place, 2));
    let first = byte(place, 0) as usize;
    for at in first..first + byte(place, 1) as usize {
        let word = rows::row_word(at);
        if applies(answers, word) {
            out.items[out.count] = record_in(word, iss);
            out.count += 1;
        }
    }
    out
}

// The records of a value; those of a refused one are not to be believed.
pub fn records_of(esr: u64) -> Records
    ensures { Walked esr result }
{
    all_records(esr, records::field(esr, 26, 6), records::field(esr, 0, 25))
}
