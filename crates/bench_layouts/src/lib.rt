// The decoder in the Rust's shape as a C function, so that compare/bench can time both engines in one way. It is no part of the archive that is installed.
#![tactic(auto)]

ghost use Rattle.std.specs.Prelude.{◌≤◌, length, ◌≡◌};
ghost use Rattle.bench_layouts.specs.Promises.{FilledByLayouts};
ghost use Rattle.capi.specs.Answers.{filled_of};
ghost use Rattle.capi.specs.Buffers.{front};
ghost use Rattle.capi.specs.Words.{all_words};
ghost use Rattle.records.specs.Sets.{set_room};

use capi::Filled;
use records::Records;
use refusals::{Reason, Refusal};

// As in `capi`, no plainer as one: `capi` has functions for C alone, and one more public function would need its promise.
fn filled_of(refusal: Refusal, count: usize) -> Filled
    ensures { result ≡ filled_of refusal count }
{
    Filled {
        carried: refusal.carries,
        count,
        refusal: refusal.number(),
        start: refusal.start,
        width: refusal.width,
    }
}

fn put_records(records: Records, slots: &mut [[u64; 2]])
    requires { (records.count ≤ set_room) × (records.count ≤ length slots.old) }
    ensures { (length (all_words records) ≡ records.count) × (slots.new ≡ front (all_words records) slots.old) }
{
    for i in 0..records.count {
        slots[i] = engine::slots::words(records.items[i]);
    }
}

#[unsafe(no_mangle)]
pub extern "C" fn esr_decode_by_layouts(esr: u64, slots: &mut [[u64; 2]]) -> Filled
    ensures { FilledByLayouts (esr, slots.old) (result, slots.new) }
{
    let answer = esr::decode_by_layouts(esr);
    if answer.refusal.is_refused() {
        return filled_of(answer.refusal, 0);
    }
    let count = answer.records.count;
    if slots.len() < count {
        return filled_of(Refusal::carrying(Reason::ShortBuffer, count as u64), 0);
    }
    put_records(answer.records, slots);
    filled_of(Refusal::NONE, count)
}
