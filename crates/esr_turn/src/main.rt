// A value with one field set (#114). The value and the number are lines of standard input, and the field is the option. What is said of them is promised by `turn_reply`; here lines
// of any length are read, through fixed buffers.
#![tactic(auto)]

use given_numbers::{Given, Reading};
use std::io::{Read, Stdin};
use std::rt::Env;

// So many numbers are asked for.
const ASKED: usize = 2;

// A proved loop has to end, and nothing says that an input does: it makes more reads than any run uses up.
// Kept in each of the three programs (rule of the project): a public function of a library is decided, and what is read is not.
fn read_numbers(mut stdin: Stdin, part: &mut [u8], numbers: &mut [u64]) -> Given {
    let mut read = Reading::start();
    'reads: for _ in 0..u64::MAX {
        let got = streams::got(stdin.read(part).ok());
        let n = streams::count_read(got, part);
        if n == 0 {
            return given_numbers::take_last(read, numbers);
        }
        read = given_numbers::take_part(read, &part[0..n], numbers);
    }
    Reading::start().given
}

fn put_reply(buf: &mut [u8], given: Given, value: u64, field: &[u8], number: u64) -> usize {
    if given.refusal.is_refused() {
        return make_reply::put_bad_number(buf, 0, given.place as u64, given.refusal);
    }
    if given.count != ASKED {
        return turn_reply::put_not_both(buf, 0, given.count as u64);
    }
    turn_reply::put_turn_reply(buf, 0, value, field, number)
}

fn main(rt: HostRuntime) {
    let mut part = io::large_buffer();
    let mut buf = io::large_buffer();
    let mut numbers = [0u64; ASKED];
    let mut field = [0u8; 64];
    let n = streams::copied(rt.arg(1, &mut field).ok(), &field);
    let given = read_numbers(rt.stdin(), &mut part, &mut numbers);
    let end = put_reply(&mut buf, given, numbers[0], &field[0..n], numbers[1]);
    streams::flush(&buf, end);
}
