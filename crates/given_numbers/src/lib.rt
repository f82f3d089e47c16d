// The numbers that a command is given, one to a line of its input, a part of the input at a time: how many lines there
// are, and the first that holds none.
#![tactic(auto)]

ghost use Rattle.given_numbers.specs.Given.{take_number};
ghost use Rattle.given_numbers.specs.Promises.{LastTaken, PartTaken, Started};
ghost use Rattle.std.specs.Prelude.{set, ◌≡◌};

use line_reader::Rest;
use number::{Number, NumberState};
use refusals::Refusal;

// How many lines were taken, and the place of the first that holds no number, counted from 1, with why. The place is 0
// where each holds one.
// Kept, place and refusal side by side, and a count: `take_part` and `take_last` take any (`PartTaken`, `LastTaken`),
// and numbers that the lent slice has no room for are counted too.
#[derive(Clone, Copy)]
pub struct Given {
    pub count: usize,
    pub place: usize,
    pub refusal: Refusal,
}

// Where the reading stands: the line that has not ended, and what was given before it.
#[derive(Clone, Copy)]
pub struct Reading {
    pub line: NumberState,
    pub given: Given,
}

impl Reading {
    // Before the first byte of an input.
    pub fn start() -> Self
        ensures { Started tt result }
    {
        let line = NumberState::start();
        let given = Given {
            count: 0,
            place: 0,
            refusal: Refusal::NONE,
        };
        Self { line, given }
    }
}

// A number that there is no room for is counted and not kept.
// Kept: tried with `get_mut`, and the proof does not close where there is no place.
fn keep(numbers: &mut [u64], at: usize, value: u64)
    ensures { numbers.new ≡ set numbers.old at value }
{
    if at < numbers.len() {
        numbers[at] = value;
    }
}

// The number of a line, or why it holds none. Behind the first that holds none nothing is looked at.
#[tactic(auto, unfolding(crate::specs::Given::take_number))]
fn take_number(given: Given, numbers: &mut [u64], number: Number) -> Given
    ensures { (result, numbers.new) ≡ take_number (given, numbers.old) number }
{
    let at = given.count;
    if given.refusal.is_refused() || at == usize::MAX {
        return given;
    }
    let count = at + 1;
    let refusal = number.refusal;
    if refusal.is_refused() {
        return Given {
            count,
            place: count,
            refusal,
        };
    }
    keep(numbers, at, number.value);
    Given {
        count,
        place: 0,
        refusal,
    }
}

// Takes the lines that end in a part of the input.
pub fn take_part(from: Reading, part: &[u8], numbers: &mut [u64]) -> Reading
    ensures { PartTaken (from, part.now, numbers.old) (result, numbers.new) }
{
    let mut line = from.line;
    let mut given = from.given;
    let mut next: usize = 0;
    // Kept: no plainer, each line gives the next offset
    while next < part.len() {
        let taken = line_reader::take_line(line, part, next);
        line = taken.state;
        next = taken.next;
        if taken.ended {
            given = take_number(given, numbers, line_reader::line_number(line, Rest::Whole));
            line = NumberState::start();
        }
    }
    Reading { line, given }
}

// A last line without a line feed is one if it has a byte.
#[tactic(auto, unfolding(crate::specs::Given::take_last))]
pub fn take_last(read: Reading, numbers: &mut [u64]) -> Given
    ensures { LastTaken (read, numbers.old) (result, numbers.new) }
{
    if !read.line.is_open() {
        return read.given;
    }
    take_number(
        read.given,
        numbers,
        line_reader::line_number(read.line, Rest::Whole),
    )
}
