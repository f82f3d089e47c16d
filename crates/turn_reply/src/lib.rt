// What `esr turn` says, byte for byte, in a lent buffer from an offset on: the value with one leaf set, by the maker, or why
// there is none (#114).
#![tactic(auto)]

ghost use Rattle.std.specs.Prelude.{◌<◌, length, get_or, ◌≡◌};
ghost use Rattle.turn_reply.specs.Promises.{NotBoth, TurnReply};
ghost use Rattle.turn_reply.specs.Turns.{Said, made_of, turned};
ghost use Rattle.std.proofs.lemmas.List.Edits.{sets};

use buffer::put_bytes;
use digits::Base;
use make_reply::put_make_reply;
use reply_lines::{put_number_line, put_refusal};
use turn_fields::Found;

// No value has more fields that can be set.
const ROOM: usize = 17;

// What a field holds after one is set.
fn value_at(esr: u64, index: usize, number: u64, i: usize) -> u64
    requires { i < length (turned esr index number) }
    ensures { result ≡ get_or (turned esr index number) i 0 }
{
    if i == index {
        return number;
    }
    let row = turn_fields::field_row(esr, i);
    records::field(esr, row.start, row.width)
}

// What all fields hold then, from high bits to low.
fn hold(esr: u64, index: usize, number: u64, numbers: &mut [u64]) -> usize
    requires { 17 ≡ length numbers.old }
    ensures { (result ≡ length (turned esr index number)) × (numbers.new ≡ sets numbers.old 0 (turned esr index number)) }
{
    let count = turn_fields::field_count(esr);
    for i in 0..count {
        numbers[i] = value_at(esr, index, number, i);
    }
    count
}

fn put_turned(buf: &mut [u8], at: usize, esr: u64, index: usize, number: u64) -> usize
    ensures { Said (made_of (turned esr index number)) (at, buf.old) (result, buf.new) }
{
    let mut numbers = [0; ROOM];
    let count = hold(esr, index, number, &mut numbers);
    put_make_reply(
        buf,
        at,
        numbers[1],
        numbers[2],
        numbers[0],
        &numbers[3..count],
    )
}

pub fn put_turn_reply(buf: &mut [u8], at: usize, esr: u64, field: &[u8], number: u64) -> usize
    ensures { TurnReply (buf.old, at, esr, field.now, number) (result, buf.new) }
{
    let answer = esr::decode(esr);
    let refusal = answer.refusal;
    if refusal.is_refused() {
        return put_refusal(buf, at, refusal);
    }
    match turn_fields::find(esr, field) {
        Found::Nowhere => put_bytes(buf, at, b"refused: no field of this value is named so\n"),
        Found::Once(index) => put_turned(buf, at, esr, index, number),
        Found::Several(_) => put_bytes(
            buf,
            at,
            b"refused: several fields are named so; give the lowest bit of one\n",
        ),
    }
}

// Another count of numbers than two.
pub fn put_not_both(buf: &mut [u8], at: usize, count: u64) -> usize
    ensures { NotBoth (buf.old, at, count) (result, buf.new) }
{
    put_number_line(
        buf,
        at,
        b"refused: VALUE FIELD NUMBER are asked for; numbers given: ",
        Base::Decimal,
        count,
    )
}
