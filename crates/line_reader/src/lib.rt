// The bytes of a line, a part of the input at a time, so that lines of any length go through a fixed buffer; where a
// line ends; and its number.
#![tactic(auto)]

ghost use Rattle.line_reader.specs.Promises.{LineEnded, NumberOfLine, RestAsked, TookLine};

use number::{Number, NumberState};

// What a caller does with what stands behind the number of a line (#107).
#[derive(Clone, Copy)]
pub enum Rest {
    // Only stops may stand there: the line is one whole number.
    Whole,
    // It is a remark, which is passed over to the end of the line.
    Skipped,
}

// How far a part of the input goes into a line: the state, the offset after what was taken, and whether a line feed
// ended the line.
// Kept, no plainer: the flag is no Option's, since state and offset are told of a line that goes on too.
#[derive(Clone, Copy)]
pub struct LinePart {
    pub state: NumberState,
    pub next: usize,
    pub ended: bool,
}

// Takes a part of the input, from an offset on, as far as the line goes.
pub fn take_line(mut state: NumberState, s: &[u8], from: usize) -> LinePart
    ensures { TookLine (state, s.now, from) result }
{
    for at in from..s.len() {
        let b = s[at];
        if b == b'\n' {
            return LinePart {
                state,
                next: at + 1,
                ended: true,
            };
        }
        state = state.step(b);
    }
    LinePart {
        state,
        next: from.max(s.len()),
        ended: false,
    }
}

// Where a line ends, for a caller that keeps its bytes: the offset of its line feed, or of the end.
pub fn line_end(s: &[u8], from: usize) -> usize
    ensures { LineEnded (s.now, from) result }
{
    let rest = &s[from.min(s.len())..];
    from + rest.iter().position(|b| *b == b'\n').unwrap_or(rest.len())
}

// The number of a line that has ended.
pub fn line_number(state: NumberState, rest: Rest) -> Number
    ensures { NumberOfLine (state, rest) result }
{
    match rest {
        Rest::Whole => state.finish(),
        Rest::Skipped => state.finish_before(),
    }
}

// What a program's option asks for: `--remarks` passes over what stands behind the number; without it a line is one
// whole number.
pub fn rest_asked(option: &[u8]) -> Rest
    ensures { RestAsked option.now result }
{
    if words::is_word(option, b"--remarks") {
        return Rest::Skipped;
    }
    Rest::Whole
}
