// The decoder, by both engines: `decode` walks the one table; `decode_by_layouts` has the Rust's shape, with the class
// table, the top rows, the checks in order, and the walk from high bits to low.
#![tactic(auto)]

ghost use Rattle.engine.specs.Engine.{readings};
ghost use Rattle.esr.specs.Decode.{accepted, failure_for, records_for, refused, table_answer};
ghost use Rattle.esr.specs.Promises.{Decoded, LayoutNumber};
ghost use Rattle.layouts.specs.Layouts.{table_of};
ghost use Rattle.records.specs.Bits.{field_of};
ghost use Rattle.records.specs.Sets.{records_of};
ghost use Rattle.refusals.specs.Refusals.{checked};
ghost use Rattle.std.specs.Prelude.{◌≡◌};

use engine::top;
use layouts::numbers;
use records::{Records, Row};
use refusals::{Reason, Refusal};

// A refusal and no records, or the records. Kept beside each other: document 01 names this form.
#[derive(Clone, Copy)]
pub struct Answer {
    pub refusal: Refusal,
    pub records: Records,
}

// The mark of a class without a layout. Kept as a number: document 01 names this form.
pub const EMPTY: u8 = 255;

// The number of each class's layout, by class. Document 01 names this form.
const CLASS: [u8; 64] = [
    // 0x00
    numbers::RES0,
    numbers::WF,
    EMPTY,
    numbers::MCR,
    numbers::MCRR,
    numbers::MCR,
    numbers::LDC,
    numbers::SVE,
    // 0x08
    EMPTY,
    EMPTY,
    numbers::LD64B,
    EMPTY,
    numbers::MCRR,
    numbers::BTI,
    numbers::RES0,
    EMPTY,
    // 0x10
    EMPTY,
    numbers::HVC,
    EMPTY,
    EMPTY,
    EMPTY,
    numbers::HVC,
    numbers::HVC,
    numbers::HVC,
    // 0x18
    numbers::MSR,
    numbers::RES0,
    EMPTY,
    EMPTY,
    numbers::PAUTH,
    EMPTY,
    EMPTY,
    EMPTY,
    // 0x20
    numbers::INSTRUCTION_ABORT,
    numbers::INSTRUCTION_ABORT,
    numbers::RES0,
    EMPTY,
    numbers::DATA_ABORT,
    numbers::DATA_ABORT,
    numbers::RES0,
    EMPTY,
    // 0x28
    numbers::FP,
    EMPTY,
    EMPTY,
    EMPTY,
    numbers::FP,
    EMPTY,
    EMPTY,
    numbers::SERROR,
    // 0x30
    numbers::BREAKPOINT,
    numbers::BREAKPOINT,
    numbers::SOFTWARE_STEP,
    numbers::SOFTWARE_STEP,
    numbers::WATCHPOINT,
    numbers::WATCHPOINT,
    EMPTY,
    EMPTY,
    // 0x38
    numbers::BRK,
    EMPTY,
    EMPTY,
    EMPTY,
    numbers::BRK,
    EMPTY,
    EMPTY,
    EMPTY,
];

// The number of the layout that serves a class; the class may be any number.
pub fn layout_number(class: u64) -> u8
    ensures { LayoutNumber class result }
{
    if 64 <= class {
        return EMPTY;
    }
    CLASS[class as usize]
}

fn refuse(refusal: Refusal) -> Answer
    ensures { result ≡ refused refusal }
{
    let none = Records::empty();
    Answer {
        refusal,
        records: none,
    }
}

// What the first row that refuses its field answers, in the order of the checks. A layout is fetched by each function
// that walks it: one that is handed on by value is copied, which costs more.
// Kept as two parameters, a layout's number and an ISS, no plainer as one: a struct of both would be built in `read`
// alone, and taken apart again here and in `all_records`.
fn first_failure(number: u8, iss: u64) -> Result<(), Refusal>
    ensures { result ≡ checked (failure_for (table_of number) iss) }
{
    let layout = layouts::layout_of(number, iss);
    for i in 0..layout.checked as usize {
        let index = layout.checks[i] as usize;
        let row = layout.rows[index];
        if !row.meets(iss) {
            return row.refusal(iss).check();
        }
    }
    Ok(())
}

// The top records, then ISS's own from high bits to low, each written where it stays. The layout says how ISS's text is
// found.
fn all_records(esr: u64, number: u8, iss: u64) -> Records
    ensures { result ≡ records_of (records_for (table_of number) esr iss) }
{
    let layout = layouts::layout_of(number, iss);
    let whole = Row {
        rule: layout.rule,
        ..top::ISS
    };
    let mut out = Records::empty();
    out.items[0] = top::RES0.get(esr);
    out.items[1] = top::ISS2.get(esr);
    out.items[2] = top::EC.get(esr);
    out.items[3] = top::IL.get(esr);
    out.items[4] = whole.get(esr);
    out.count = 5;
    for i in 0..layout.count as usize {
        let item = layout.rows[i].get(iss);
        out.items[out.count] = item;
        out.count += 1;
    }
    out
}

fn read(esr: u64, number: u8) -> Answer
    ensures { result ≡ table_answer (table_of number) esr (field_of esr 0 25) }
{
    let iss = records::field(esr, 0, 25);
    match first_failure(number, iss) {
        Ok(()) => Answer {
            refusal: Refusal::NONE,
            records: all_records(esr, number, iss),
        },
        Err(refusal) => refuse(refusal),
    }
}

// The decoder in the Rust's shape: a routine for each layout.
pub fn decode_by_layouts(esr: u64) -> Answer
    ensures { Decoded esr result }
{
    if !top::RES0.meets(esr) {
        return refuse(top::RES0.refusal(esr));
    }
    let class = records::field(esr, 26, 6);
    let number = layout_number(class);
    if number == EMPTY {
        return refuse(Refusal::carrying(Reason::InvalidEc, class));
    }
    read(esr, number)
}

// The records of a value that the engine accepts.
fn accept(esr: u64) -> Answer
    ensures { result ≡ accepted (readings esr) }
{
    Answer {
        refusal: Refusal::NONE,
        records: engine::records_of(esr),
    }
}

// The quicker of both: the engine, which walks the one table of all rows (#113). Each answer is returned where it is
// made, so that none is copied.
pub fn decode(esr: u64) -> Answer
    ensures { Decoded esr result }
{
    match engine::judge(esr) {
        Ok(()) => accept(esr),
        Err(refusal) => refuse(refusal),
    }
}
