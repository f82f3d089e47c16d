// A value made of numbers, one to a line of standard input: the class, IL, ISS2 and the leaves of ISS from high to low (#106); with `--help` the sets of leaves of a class.
// What is said of them is promised by `make_reply`; here lines of any length are read, through fixed buffers.
#![tactic(auto)]

ghost use Rattle.std.specs.Prelude.{◌≤◌, length, ◌≡◌};

use given_numbers::{Given, Reading};
use std::io::{Read, Stdin};
use std::rt::Env;
use streams::STDERR;

// So many numbers are kept. No set has more than 14 leaves, so that what is not kept decides nothing.
const KEPT: usize = 4096;

// The numbers that come before the leaves.
const FIRST: usize = 3;

fn places() -> [u64; KEPT]
    ensures { 4096 ≡ length result }
{
    [0; KEPT]
}

// A proved loop has to end, and nothing says that an input does: it makes more reads than any run uses up.
// Kept in each of the three programs (rule of the project): a public function of a library is decided, and what is read is not.
fn read_numbers(mut stdin: Stdin, part: &mut [u8], numbers: &mut [u64]) -> Given {
    let mut read = Reading::start();
    'reads: for _ in 0..u64::MAX {
        let got = streams::got(stdin.read(part).ok());
        let n = streams::count_read(got, part);
        if n == 0 {
            return given_numbers::take_last(read, numbers);
        }
        read = given_numbers::take_part(read, &part[0..n], numbers);
    }
    Reading::start().given
}

// The end of the numbers that are kept.
fn kept(count: usize, numbers: &[u64]) -> usize
    ensures { result ≤ length numbers.now }
{
    if numbers.len() < count {
        io::write_all(
            STDERR,
            b"esr: more than 4,096 numbers; the first are looked at\n",
        );
        return numbers.len();
    }
    count
}

fn put_reply(buf: &mut [u8], help: bool, given: Given, numbers: &[u64]) -> usize {
    if given.refusal.is_refused() {
        return make_reply::put_bad_number(buf, 0, given.place as u64, given.refusal);
    }
    let end = kept(given.count, numbers);
    if help {
        if 0 < end {
            return make_reply::put_help_reply(buf, 0, numbers[0]);
        }
    }
    if end < FIRST {
        return make_reply::put_too_few(buf, 0, end as u64);
    }
    make_reply::put_make_reply(buf, 0, numbers[0], numbers[1], numbers[2], &numbers[3..end])
}

fn asks_help(rt: HostRuntime) -> bool {
    let mut word = [0u8; 8];
    let n = streams::copied(rt.arg(1, &mut word).ok(), &word);
    words::is_word(&word[0..n], b"--help")
}

fn main(rt: HostRuntime) {
    let mut part = io::large_buffer();
    let mut buf = io::large_buffer();
    let mut numbers = places();
    let given = read_numbers(rt.stdin(), &mut part, &mut numbers);
    let end = put_reply(&mut buf, asks_help(rt), given, &numbers);
    streams::flush(&buf, end);
}
