// The engine's records as words, straight into lent slots: each is written once, and no set stands in between.
ghost use Rattle.std.specs.Prelude.{◌+◌, ◌<◌, ◌≤◌, T, leb, length, map, ◌≡◌};
ghost use Rattle.engine.specs.Engine.{direct, row_in, rows_from};
ghost use Rattle.engine.specs.Promises.{Put, Words};
ghost use Rattle.engine.specs.Words.{slot_of};
ghost use Rattle.tables.specs.Tables.{iss_under, top_rows};
ghost use Rattle.texts.specs.Pool.{text_code};
ghost use Rattle.std.proofs.lemmas.List.Edits.{sets};

use crate::{answers_of, applies, byte, describes, iss_record, value_in};
use engine_table::{places, rows, rules};
use records::{Record, Records, kinds as k};
use texts::rules as r;

// The top rows, packed as those of the table.
pub(crate) const RES0: u64 = 0x21B_2502_0000_0001;

pub(crate) const ISS2: u64 = 0x5_2000_0000_0003;

pub(crate) const EC: u64 = 0x106_1A05_2100_0004;

pub(crate) const IL: u64 = 0x1_1907_0100_0006;

pub(crate) const ISS: u64 = 0x19_0009_0000_0008;

// How many they are.
const TOP: usize = 5;

// The code of a rule's text of a value; 0 for none. `lookup::text_code` finds a rule by a match of its own and not in
// the engine's table, so no plainer as one.
fn text_code(rule: u8, value: u64) -> u64
    ensures { (result ≡ text_code rule value) × (result < 0x10000) }
{
    if describes(rule, value) {
        return rules::first_text(rule) + value;
    }
    0
}

// A row's record of a value. Name, long name, start and width lie in the packed row as they do in the second word.
fn slot(word: u64, v: u64) -> [u64; 2]
    requires { T (direct word) }
    ensures { result ≡ slot_of v (row_in word) }
{
    let value = value_in(word, v);
    let text = text_code(byte(word, 3), value);
    let name = byte(word, 0) as u64;
    let long = byte(word, 4) as u64;
    let start = byte(word, 5) as u64;
    let width = byte(word, 6) as u64;
    let mark = (byte(word, 7) % k::MARKS) as u64;
    let codes = name + text * 0x1_0000 + long * 0x1_0000_0000;
    let bits = start + width * 0x100 + mark * 0x1_0000;
    [value, codes + bits * 0x100_0000_0000]
}

// A record as two words, the second with all but the value: from low bits to high, as its fields lie in a little-endian
// machine.
pub fn words(item: Record) -> [u64; 2]
    ensures { Words item result }
{
    let codes = item.name as u64 + item.text as u64 * 0x1_0000 + item.long as u64 * 0x1_0000_0000;
    let bits = item.start as u64 + item.width as u64 * 0x100 + item.mark.number() as u64 * 0x1_0000;
    [item.value, codes + bits * 0x100_0000_0000]
}

// ISS itself, by the rule that the layout has for it.
// Kept beside `iss_record`, no plainer as one: each gives its own form, two words here and a record there, and what is
// shared is the one test.
fn iss_slot(esr: u64, rule: u8) -> [u64; 2]
    ensures { result ≡ slot_of esr (iss_under rule) }
{
    if rule == r::PLAIN {
        return slot(ISS, esr);
    }
    words(iss_record(esr, rule))
}

fn top_slots(esr: u64, rule: u8, slots: &mut [[u64; 2]])
    requires { 5 ≤ length slots.old }
    ensures { slots.new ≡ sets slots.old 0 (map (slot_of esr) (top_rows rule)) }
{
    slots[0] = slot(RES0, esr);
    slots[1] = slot(ISS2, esr);
    slots[2] = slot(EC, esr);
    slots[3] = slot(IL, esr);
    slots[4] = iss_slot(esr, rule);
}

// ISS's own rows, after the top ones; how many slots are filled then.
fn row_slots(iss: u64, answers: u64, first: usize, count: u8, slots: &mut [[u64; 2]]) -> usize
    requires { (first < 256) × (5 + length (rows_from answers first count) ≤ length slots.old) }
    ensures { (result ≡ 5 + length (rows_from answers first count)) × (slots.new ≡ sets slots.old 5 (map (slot_of iss) (rows_from answers first count))) }
{
    let mut next = TOP;
    for at in first..first + count as usize {
        let word = rows::row_word(at);
        if applies(answers, word) {
            slots[next] = slot(word, iss);
            next += 1;
        }
    }
    next
}

// How many rows apply.
fn count_rows(answers: u64, first: usize, count: u8) -> usize
    requires { first < 256 }
    ensures { result ≡ length (rows_from answers first count) }
{
    let mut found: usize = 0;
    for at in first..first + count as usize {
        if applies(answers, rows::row_word(at)) {
            found += 1;
        }
    }
    found
}

// Whether the slots have room for the records: as many as a set holds have room for those of any value, and where there
// are fewer the rows are counted.
fn fits(room: usize, answers: u64, first: usize, count: u8) -> bool
    requires { (first < 256) × (length (rows_from answers first count) ≤ 14) }
    ensures { result ≡ leb (5 + length (rows_from answers first count)) room }
{
    Records::MAX <= room || TOP + count_rows(answers, first, count) <= room
}

// The records of a value, each written once, where the slots have room for all of them; how many they are.
pub fn put_records(esr: u64, slots: &mut [[u64; 2]]) -> usize
    ensures { Put (esr, slots.old) (result, slots.new) }
{
    let iss = records::field(esr, 0, 25);
    let place = places::place_word(records::field(esr, 26, 6));
    let answers = answers_of(iss);
    let first = byte(place, 0) as usize;
    let count = byte(place, 1);
    if !fits(slots.len(), answers, first, count) {
        return TOP + count_rows(answers, first, count);
    }
    top_slots(esr, byte(place, 2), slots);
    row_slots(iss, answers, first, count, slots)
}
