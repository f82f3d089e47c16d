// Counts a run of values: those that are accepted by class, in a lent table, and those that are refused by the number of the refusal (#101).
#![tactic(auto)]

ghost use Rattle.std.specs.Prelude.{◌+◌, ◌^◌, ◌<◌, get_or, length, replicate, set, ◌≡◌};
ghost use Rattle.survey.specs.Promises.{OrdinaryCounts, Surveyed};
ghost use Rattle.survey.specs.Surveys.{class_counts, is_of_class, is_refused_at, refused_counts};
ghost use Rattle.survey.specs.Tallies.{Noted, Roomy};

use refusals::{Reason, Refusal, VALUE_NUMBERS, value_place};
use strict::{Profile, decode_by};

// A table has a place for each class that six bits can tell.
const CLASSES: usize = 64;

// No count of fewer values passes 32 bits.
const LIMIT: usize = 1 << 32;

// How many values each of the refusals refused that a value can have, in the order of their numbers.
#[derive(Clone, Copy)]
pub struct Tally {
    pub refused: [u32; VALUE_NUMBERS],
}

impl Tally {
    // The counts of 1 to 7: the ordinary decoder refuses by no other.
    pub fn ordinary(self) -> [u32; 7]
        ensures { OrdinaryCounts self result }
    {
        let all = self.refused;
        [all[0], all[1], all[2], all[3], all[4], all[5], all[6]]
    }
}

// One value more in a count.
fn add_one(counts: &mut [u32], place: usize)
    requires { (place < length counts.old) × (get_or counts.old place 0 + 1 < 2 ^ 32) }
    ensures { counts.new ≡ set counts.old place (get_or counts.old place 0 + 1) }
{
    counts[place] += 1;
}

// One value more in the tables: in the count of its class, or of the number that it is refused by.
fn note(profile: Profile, esr: u64, counts: &mut [u32], refused: &mut [u32; VALUE_NUMBERS])
    requires { (length counts.old ≡ 64) × (length refused.old ≡ 9) × Roomy counts.old × Roomy refused.old }
    ensures { Noted (is_of_class profile) esr counts.old counts.new × Noted (is_refused_at profile) esr refused.old refused.new }
{
    let refusal = decode_by(profile, esr).refusal;
    match value_place(refusal.number()) {
        Some(place) => add_one(refused, place),
        None => add_one(counts, records::field(esr, 26, 6) as usize),
    }
}

// All values, in tables that are clear.
fn note_all(
    profile: Profile,
    values: &[u64],
    counts: &mut [u32],
    refused: &mut [u32; VALUE_NUMBERS],
)
    requires { (length values.now < 2 ^ 32) × (counts.old ≡ replicate 64 0) × (refused.old ≡ replicate 9 0) }
    ensures { (counts.new ≡ class_counts profile values.now) × (refused.new ≡ refused_counts profile values.now) }
{
    for value in values {
        note(profile, *value, counts, refused);
    }
}

// The profile says which values are accepted (#110).
pub fn survey(profile: Profile, values: &[u64], counts: &mut [u32]) -> Result<Tally, Refusal>
    ensures { Surveyed (profile, values.now, counts.old) (result, counts.new) }
{
    if counts.len() != CLASSES {
        return Err(Refusal::carrying(Reason::BadTable, 0));
    }
    if LIMIT <= values.len() {
        return Err(Refusal::carrying(Reason::LongRun, 0));
    }
    let mut refused = [0; VALUE_NUMBERS];
    counts.fill(0);
    note_all(profile, values, counts, &mut refused);
    Ok(Tally { refused })
}
