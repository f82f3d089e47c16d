// The numbers of a run of lines, a line at a time and a part of the input at a time: as many lines as the lent run has
// places, so that each has one.
#![tactic(auto)]

ghost use Rattle.number_lines.specs.Promises.{Filled, LastTaken, LinesTaken, Started};
ghost use Rattle.number_lines.specs.Runs.{end_line, on_line};
ghost use Rattle.std.specs.Prelude.{◌≡◌};

use line_reader::take_line;
use number::NumberState;

// Where a run stands: the line that is being read, how many numbers the run has, and how many lines held none.
#[derive(Clone, Copy)]
pub struct Lines {
    pub line: NumberState,
    pub numbers: usize,
    pub none: usize,
}

// Where a run stands after a part of the input, and the offset after what was taken of it.
#[derive(Clone, Copy)]
pub struct LinesPart {
    pub lines: Lines,
    pub next: usize,
}

impl Lines {
    pub fn start() -> Self
        ensures { Started tt result }
    {
        Self {
            line: NumberState::start(),
            numbers: 0,
            none: 0,
        }
    }

    // Whether a run of so many places takes no line more. The sum of both counts could pass a usize.
    pub fn is_full(self, places: usize) -> bool
        ensures { Filled (self, places) result }
    {
        places.saturating_sub(self.numbers) <= self.none
    }

    fn on_line(self, line: NumberState) -> Self
        ensures { result ≡ on_line self line }
    {
        Self { line, ..self }
    }
}

// The line has ended: its number goes to the run's next place, or it held none.
#[tactic(auto, unfolding(crate::specs::Runs::end_line))]
fn end_line(from: Lines, run: &mut [u64]) -> Lines
    ensures { (result, run.new) ≡ end_line from run.old }
{
    if from.is_full(run.len()) {
        return from;
    }
    let number = from.line.finish_before();
    let at = from.numbers;
    if number.refusal.is_refused() {
        return Lines {
            line: NumberState::start(),
            none: from.none + 1,
            ..from
        };
    }
    run[at] = number.value;
    Lines {
        line: NumberState::start(),
        numbers: at + 1,
        ..from
    }
}

// Takes a part of the input, from an offset on, until it ends or the run is full.
pub fn take_lines(from: Lines, part: &[u8], at: usize, run: &mut [u64]) -> LinesPart
    ensures { LinesTaken (from, part.now, at, run.old) (result, run.new) }
{
    let mut lines = from;
    let mut next = at;
    // Kept: no plainer, each line gives the next offset
    while next < part.len() {
        if lines.is_full(run.len()) {
            return LinesPart { lines, next };
        }
        let taken = take_line(lines.line, part, next);
        lines = lines.on_line(taken.state);
        next = taken.next;
        if !taken.ended {
            return LinesPart { lines, next };
        }
        lines = end_line(lines, run);
    }
    LinesPart { lines, next }
}

// A last line without a line feed is one if it has a character.
#[tactic(auto, unfolding(crate::specs::Runs::take_last))]
pub fn take_last(from: Lines, run: &mut [u64]) -> Lines
    ensures { LastTaken (from, run.old) (result, run.new) }
{
    if from.line.is_open() {
        return end_line(from, run);
    }
    from
}
