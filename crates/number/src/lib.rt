// Reads a number as Rust's library does: an optional "0x", an optional "+", then digits, as far as the first stop
// (#107), the state after each byte handed on to the next.
#![tactic(auto)]

ghost use Rattle.std.specs.Option.{unwrap_or};
ghost use Rattle.std.specs.Prelude.{◌≡◌, ◌<◌, ◌≤◌, false, drop, length};
ghost use Rattle.number.specs.Digits.{base_of, digit_of};
ghost use Rattle.number.specs.Numbers.{in_digits, read_digit, refused};
ghost use Rattle.number.specs.Promises.{Finished, FinishedBefore, Opened, Parsed, Started, Stepped, TookNumber};
ghost use Rattle.number.specs.Rest.{are_stops, bad_rest, is_stop, taking, whole_by};
ghost use Rattle.number.specs.Steps.{DigitsTo, StepsTo, advance_of, end_reason, finish_before_of, lead_of, leads_of};
ghost use Rattle.number.specs.Steps.{stage_after, stop_of};

use refusals::{Reason, Refusal};

// All bits but bit 5, in which alone small letters differ from large ones.
const BUT_CASE: u64 = 0xFFFF_FFFF_FFFF_FFDF;

// The only sign that a number may have.
const SIGN: u8 = b'+';

// The most that a result may be.
const MOST: u64 = u64::MAX;

// What the next character may be besides a digit, and behind the number what stands there.
#[derive(Clone, Copy, PartialEq, Eq)]
pub enum Stage {
    // There is no character yet: a "+" may stand, and a "0" may begin "0x".
    Begin,
    // The text is "0": an "x" selects base 16.
    Zero,
    // The text is "0x": a "+" may stand.
    Prefix,
    // The last character is a "+", which may stand if a character follows.
    Sign,
    Digits,
    // A stop has ended the number, and only stops stand behind it.
    Stopped,
    // Something else stands behind it.
    Remark,
}

// The value so far, the first refusal, the base and the stage. Where something is refused the value is 0.
// Kept, value and reason side by side: `step` takes any state (`Stepped`), also one that has both.
#[derive(Clone, Copy)]
pub struct NumberState {
    pub value: u64,
    pub reason: Reason,
    pub hex: bool,
    pub stage: Stage,
}

// The value, or the refusal and the value 0.
// Kept, no Result: `put_number_reply` and others take one with any value beside its refusal (`finish`, `Parsed`).
#[derive(Clone, Copy)]
pub struct Number {
    pub value: u64,
    pub refusal: Refusal,
}

// The number at the front of an input, and how many bytes it took.
#[derive(Clone, Copy)]
pub struct NumberRead {
    pub value: u64,
    pub taken: usize,
}

// The state after the characters before an offset.
#[derive(Clone, Copy)]
struct Lead {
    state: NumberState,
    at: usize,
}

// What ends a number (#107): a space, tab, carriage return or line feed.
#[tactic(auto, unfolding(crate::specs::Rest::is_stop))]
fn is_stop(b: u8) -> bool
    ensures { result ≡ is_stop b }
{
    matches!(b, b' ' | b'\t' | b'\r' | b'\n')
}

fn base_of(hex: bool) -> u64
    ensures { result ≡ base_of hex }
{
    if hex { 16 } else { 10 }
}

// Below the base the result is the digit; otherwise the character is no digit: one before "0" or "A" wraps to a large
// number. So no branch asks for the range of the character, which a processor cannot predict.
fn digit_of(hex: bool, b: u8) -> u64
    ensures { (result < base_of hex → result ≡ digit_of b) × (base_of hex ≤ result → base_of hex ≤ digit_of b) }
{
    let byte = u64::from(b);
    if hex && b'9' < b {
        return 10 + (byte.wrapping_sub(u64::from(b'A')) & BUT_CASE);
    }
    byte.wrapping_sub(u64::from(b'0'))
}

#[tactic(auto, unfolding(crate::specs::Steps::stage_after))]
fn stage_after(stage: Stage, b: u8) -> Stage
    ensures { result ≡ stage_after stage b }
{
    match stage {
        Stage::Begin => match b {
            SIGN => Stage::Sign,
            b'0' => Stage::Zero,
            _ => Stage::Digits,
        },
        Stage::Zero if b == b'x' => Stage::Prefix,
        Stage::Prefix if b == SIGN => Stage::Sign,
        Stage::Zero | Stage::Prefix | Stage::Sign | Stage::Digits => Stage::Digits,
        Stage::Stopped | Stage::Remark => Stage::Remark,
    }
}

fn end_reason(stage: Stage, reason: Reason) -> Reason
    ensures { result ≡ end_reason stage reason }
{
    match stage {
        Stage::Begin | Stage::Prefix => Reason::Empty,
        Stage::Sign => Reason::InvalidDigit,
        _ => reason,
    }
}

fn bad_rest() -> Number
    ensures { result ≡ bad_rest }
{
    Number {
        value: 0,
        refusal: Refusal::carrying(Reason::BadRest, 0),
    }
}

impl NumberState {
    pub fn start() -> Self
        ensures { Started tt result }
    {
        Self {
            value: 0,
            reason: Reason::None,
            hex: false,
            stage: Stage::Begin,
        }
    }

    fn is_refused(self) -> bool
        ensures { result ≡ refused self.reason }
    {
        self.reason != Reason::None
    }

    // The stage that a character leads to; after "0x" the base is 16.
    fn advance(self, b: u8) -> Self
        ensures { result ≡ advance_of self b }
    {
        let stage = stage_after(self.stage, b);
        Self {
            hex: self.hex || stage == Stage::Prefix,
            stage,
            ..self
        }
    }

    fn in_digits(self, value: u64, reason: Reason) -> Self
        ensures { result ≡ in_digits self.hex value reason }
    {
        Self {
            value,
            reason,
            stage: Stage::Digits,
            ..self
        }
    }

    // The test comes before the sum, which could pass 64 bits. Below MOST / base every digit fits.
    fn read_digit(self, b: u8) -> Self
        ensures { result ≡ read_digit self b }
    {
        let digit = digit_of(self.hex, b);
        let base = base_of(self.hex);
        if base <= digit {
            return self.in_digits(0, Reason::InvalidDigit);
        }
        if MOST / base <= self.value && (MOST - digit) / base < self.value {
            return self.in_digits(0, Reason::PosOverflow);
        }
        self.in_digits(self.value * base + digit, self.reason)
    }

    // A stop is the number's end: what the end of the input would refuse is refused here.
    fn stop(self) -> Self
        ensures { result ≡ stop_of self }
    {
        if self.stage == Stage::Remark {
            return self;
        }
        Self {
            reason: end_reason(self.stage, self.reason),
            stage: Stage::Stopped,
            ..self
        }
    }

    #[tactic(auto, unfolding(crate::specs::Steps::step_of))]
    pub fn step(mut self, b: u8) -> Self
        ensures { Stepped (self, b) result }
    {
        if self.is_refused() {
            return self;
        }
        if is_stop(b) {
            return self.stop();
        }
        self = self.advance(b);
        if self.stage == Stage::Digits {
            return self.read_digit(b);
        }
        self
    }

    // Whether there was a byte.
    pub fn is_open(self) -> bool
        ensures { Opened self result }
    {
        self.stage != Stage::Begin
    }

    // The number before the first stop; the caller passes over the rest.
    pub fn finish_before(self) -> Number
        ensures { FinishedBefore self result }
    {
        Number {
            value: self.value,
            refusal: Refusal::carrying(end_reason(self.stage, self.reason), 0),
        }
    }

    // The number of the whole: a remark behind it is refused.
    pub fn finish(self) -> Number
        ensures { Finished self result }
    {
        if self.stage == Stage::Remark {
            return bad_rest();
        }
        self.finish_before()
    }
}

// Whether only stops stand there.
fn are_stops(rest: &[u8]) -> bool
    ensures { result ≡ are_stops rest.now }
{
    rest.iter().all(|b| is_stop(*b))
}

impl Lead {
    // The number of a state, which the bytes before its offset stand for.
    fn taking(self) -> Result<NumberRead, Refusal>
        ensures { result ≡ taking (finish_before_of self.state) self.at }
    {
        let number = self.state.finish_before();
        number.refusal.check()?;
        Ok(NumberRead {
            value: number.value,
            taken: self.at,
        })
    }

    // The number of a state, of which the whole input is said: what stands from its offset on is looked at where the
    // number itself is not refused.
    fn whole(self, s: &[u8]) -> Number
        requires { self.at ≤ length s.now }
        ensures { result ≡ whole_by (finish_before_of self.state) (are_stops (drop self.at s.now)) }
    {
        let number = self.state.finish_before();
        if !number.refusal.is_refused() && !are_stops(&s[self.at..]) {
            return bad_rest();
        }
        number
    }
}

// A step for each byte, as far as the first stop.
fn read_before(s: &[u8]) -> Lead
    ensures { StepsTo s.now result }
{
    let mut state = NumberState::start();
    for (at, b) in s.iter().enumerate() {
        if is_stop(*b) {
            return Lead { state, at };
        }
        state = state.step(*b);
    }
    Lead { state, at: s.len() }
}

pub fn read_number(s: &[u8]) -> Result<NumberRead, Refusal>
    ensures { TookNumber s.now result }
{
    read_before(s).taking()
}

// Takes one character, if there is one that stands before the digits. A stop does not.
#[tactic(auto, unfolding(crate::specs::Steps::lead_of))]
fn take_lead(from: Lead, s: &[u8]) -> Option<Lead>
    ensures taken { unwrap_or result from ≡ lead_of from (drop from.at s.now) }
    ensures within { from.at ≤ length s.now → (unwrap_or result from).at ≤ length s.now }
{
    let b = s.get(from.at)?;
    let state = from.state.advance(*b);
    if state.stage == Stage::Digits {
        return None;
    }
    Some(Lead {
        state,
        at: from.at + 1,
    })
}

// Takes all that stand before the digits: three at most, "0x+".
fn take_leads(from: Lead, s: &[u8]) -> Lead
    ensures taken { result ≡ leads_of 3 from s.now }
    ensures within { from.at ≤ length s.now → result.at ≤ length s.now }
{
    let Some(one) = take_lead(from, s) else {
        return from;
    };
    let Some(two) = take_lead(one, s) else {
        return one;
    };
    take_lead(two, s).unwrap_or(two)
}

// It ends at a stop, or at a refusal, since the characters after the first offender change nothing. Whether a character
// is a stop is asked only where it is no digit: a stop is none.
fn read_digits(from: Lead, s: &[u8]) -> Lead
    requires free { refused from.state.reason ≡ false }
    requires within { from.at ≤ length s.now }
    ensures read { DigitsTo from (drop from.at s.now) result }
    ensures within { result.at ≤ length s.now }
{
    let mut state = from.state;
    for at in from.at..s.len() {
        let next = state.read_digit(s[at]);
        if next.is_refused() {
            let last = if is_stop(s[at]) { state } else { next };
            return Lead { state: last, at };
        }
        state = next;
    }
    Lead { state, at: s.len() }
}

// What a step for each byte gives, but quicker: the digits are read in a loop of their own, which is compiled once for
// each base, where the base is a constant.
pub fn parse_number(s: &[u8]) -> Number
    ensures { Parsed s.now result }
{
    let start = Lead {
        state: NumberState::start(),
        at: 0,
    };
    let last = take_leads(start, s);
    if last.state.hex {
        return read_digits(last, s).whole(s);
    }
    read_digits(last, s).whole(s)
}
