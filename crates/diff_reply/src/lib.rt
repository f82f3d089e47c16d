// What `esr diff` says of two values, byte for byte, in a lent buffer from an offset on: the records of both side by
// side, or why a value is refused (#114).
#![tactic(auto)]

ghost use Rattle.std.specs.Prelude.{◌≤◌, length, ◌≡◌};
ghost use Rattle.buffer.specs.Appending.{Appends};
ghost use Rattle.diff_reply.specs.Promises.{DiffReply, NotTwo};
ghost use Rattle.diff_reply.specs.Replies.{both_named, both_part, other_rows, refused_part, same_field, same_record};
ghost use Rattle.diff_reply.specs.Steps.{TurnLeft, TurnStep, pair_text, turn_part, turn_side};
ghost use Rattle.diff_reply.specs.Steps.{of_first, of_second, side_of};
ghost use Rattle.records.specs.Sets.{list_of};

use buffer::put_bytes;
use diff_lines::{put_changed, put_marked};
use digits::Base;
use named_fields::{is_named, same_rows};
use records::{Record, Records};
use reply_lines::{put_number_line, put_refusal};

// Whether two records are of a row that both readings have.
#[tactic(auto, unfolding(crate::specs::Replies::same_field))]
fn same_field(x: Record, y: Record) -> bool
    ensures { result ≡ same_field x y }
{
    (x.start == y.start) & (x.width == y.width) & (x.name == y.name) & (x.long == y.long)
}

// Whether two records of such a row are equal.
#[tactic(auto, unfolding(crate::specs::Replies::same_record))]
fn same_record(x: Record, y: Record) -> bool
    ensures { result ≡ same_record x y }
{
    (x.value == y.value) & (x.text == y.text) & (x.mark == y.mark)
}

// How many records a set counts: a count past its room counts all that it holds.
fn counted(records: Records) -> usize
    ensures { (result ≡ length (list_of records)) × (result ≤ 19) }
{
    records.count.min(Records::MAX)
}

// Which reading has the next part.
#[derive(Clone, Copy)]
enum Side {
    First,
    Second,
    Both,
}

impl Side {
    // Of two records: both, if they are of one row; else the one with the higher start goes first.
    #[tactic(auto, unfolding(crate::specs::Steps::side_of))]
    fn of(x: Record, y: Record) -> Self
        ensures { result ≡ side_of x y }
    {
        if same_field(x, y) {
            return Side::Both;
        }
        if x.start < y.start {
            return Side::Second;
        }
        Side::First
    }

    // How many records the part takes of the first list, and of the second.
    fn taken(self) -> (usize, usize)
        ensures { (result.0 ≡ of_first self) × (result.1 ≡ of_second self) × (result.0 ≤ 1) × (result.1 ≤ 1) }
    {
        match self {
            Side::First => (1, 0),
            Side::Second => (0, 1),
            Side::Both => (1, 1),
        }
    }
}

// Where the text and the two lists stand.
#[derive(Clone, Copy)]
struct Turn {
    next: usize,
    first: usize,
    second: usize,
}

// Two values, and the records of each.
#[derive(Clone, Copy)]
struct Pair<'a> {
    v: u64,
    w: u64,
    first: &'a Records,
    second: &'a Records,
}

impl Pair<'_> {
    // Whether a condition of either class names a record's field, or it is the class.
    #[tactic(auto, unfolding(crate::specs::Replies::both_named))]
    fn both_named(self, x: Record) -> bool
        ensures { result ≡ both_named self.entry.v self.entry.w x }
    {
        let a = is_named(records::field(self.v, 26, 6), x.start, x.width);
        let b = is_named(records::field(self.w, 26, 6), x.start, x.width);
        a | b
    }

    // A row that both have.
    #[tactic(auto, unfolding(crate::specs::Replies::both_part, texts::specs::Pool::bytes))]
    fn put_both(self, buf: &mut [u8], at: usize, index: usize, x: Record, y: Record) -> usize
        ensures { Appends (both_part self.entry.v self.entry.w index x y) (at, buf.old) (result, buf.new) }
    {
        if same_record(x, y) {
            return put_marked(buf, at, b"  ", index, x);
        }
        if self.both_named(x) {
            return put_changed(buf, at, b"! ", index, x, y);
        }
        put_changed(buf, at, b"* ", index, x, y)
    }

    // A reading that has no record left leaves the part to the other.
    fn next_side(self, turn: Turn) -> Side
        ensures { result ≡ turn_side self.entry turn }
    {
        if counted(*self.second) <= turn.second {
            return Side::First;
        }
        if counted(*self.first) <= turn.first {
            return Side::Second;
        }
        Side::of(self.first.at(turn.first), self.second.at(turn.second))
    }

    // The part of a side: of either alone, under its mark, or of both.
    #[tactic(auto, unfolding(crate::specs::Steps::part_of, crate::specs::Replies::first_part, crate::specs::Replies::second_part, texts::specs::Pool::bytes))]
    fn put_part(self, buf: &mut [u8], turn: Turn, side: Side) -> usize
        ensures { Appends (turn_part self.entry turn side) (turn.next, buf.old) (result, buf.new) }
    {
        let x = self.first.at(turn.first);
        let y = self.second.at(turn.second);
        match side {
            Side::First => put_marked(buf, turn.next, b"< ", turn.first, x),
            Side::Second => put_marked(buf, turn.next, b"> ", turn.second, y),
            Side::Both => self.put_both(buf, turn.next, turn.first, x, y),
        }
    }

    // One part: of both, or of the one that goes first.
    fn put_step(self, buf: &mut [u8], turn: Turn) -> Turn
        requires { TurnLeft self turn }
        ensures { TurnStep self.entry turn buf.old result buf.new }
    {
        let side = self.next_side(turn);
        let (first, second) = side.taken();
        Turn {
            next: self.put_part(buf, turn, side),
            first: turn.first + first,
            second: turn.second + second,
        }
    }

    fn put_side_by_side(self, buf: &mut [u8], at: usize) -> usize
        ensures { Appends (pair_text self.entry) (at, buf.old) (result, buf.new) }
    {
        // No plainer as a `for`: how far each list goes in a turn is told by the records themselves.
        let all = counted(*self.first) + counted(*self.second);
        let mut turn = Turn {
            next: at,
            first: 0,
            second: 0,
        };
        while turn.first + turn.second < all {
            turn = self.put_step(buf, turn);
        }
        turn.next
    }

    #[tactic(auto, using(buffer::proofs::Appending::none), unfolding(crate::specs::Replies::other_rows, texts::specs::Pool::bytes))]
    fn put_other_rows(self, buf: &mut [u8], at: usize) -> usize
        ensures { Appends (other_rows self.entry.v self.entry.w) (at, buf.old) (result, buf.new) }
    {
        if same_rows(self.v, self.w) {
            return at;
        }
        put_bytes(
            buf,
            at,
            b"other rows: the fields marked ! decide which there are\n",
        )
    }
}

// Of an accepted value nothing is said.
#[tactic(auto, using(buffer::proofs::Appending::none), unfolding(crate::specs::Replies::refused_part))]
fn put_refused_part(buf: &mut [u8], at: usize, esr: u64) -> usize
    ensures { Appends (refused_part esr) (at, buf.old) (result, buf.new) }
{
    let answer = esr::decode(esr);
    if !answer.refusal.is_refused() {
        return at;
    }
    let next = put_number_line(buf, at, b"> 0x", Base::Hex, esr);
    put_refusal(buf, next, answer.refusal)
}

pub fn put_diff_reply(buf: &mut [u8], at: usize, first: u64, second: u64) -> usize
    ensures { DiffReply (buf.old, at, first, second) (result, buf.new) }
{
    let one = esr::decode(first);
    let two = esr::decode(second);
    if one.refusal.is_refused() | two.refusal.is_refused() {
        let next = put_refused_part(buf, at, first);
        return put_refused_part(buf, next, second);
    }
    let pair = Pair {
        v: first,
        w: second,
        first: &one.records,
        second: &two.records,
    };
    let next = pair.put_side_by_side(buf, at);
    pair.put_other_rows(buf, next)
}

// Another count of numbers than two. Kept as a count: `NotTwo` tells of any.
#[tactic(auto, unfolding(crate::specs::Replies::not_two, texts::specs::Pool::bytes))]
pub fn put_not_two(buf: &mut [u8], at: usize, count: u64) -> usize
    ensures { NotTwo (buf.old, at, count) (result, buf.new) }
{
    put_number_line(
        buf,
        at,
        b"refused: VALUE VALUE are asked for; numbers given: ",
        Base::Decimal,
        count,
    )
}
