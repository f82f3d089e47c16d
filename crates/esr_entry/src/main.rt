// A flash entry at the start of standard input: its numbers, its body and the listing of its ESR, or its refusal. What is said of it is promised by
// `entry_reply`. With the option `--strict` or `--nested`, in the second place, the ESR is read strictly (#110).
#![tactic(auto)]

ghost use Rattle.std.specs.Prelude.{◌≤◌, length, ◌≡◌};

use entry_reply::put_entry_reply;
use std::io::{Read, Stdin};
use std::rt::Env;
use streams::STDIN;
use strict::profile_asked;

// An entry is decided by its length field, two bytes, and the 65,535 that may follow.
const BLOCK: usize = 65537;

fn room() -> [u8; BLOCK]
    ensures { 65537 ≡ length result }
{
    [0; BLOCK]
}

// Reads until the block is full or the input ends. What ended it is asked once more, so that an input that cannot be
// read is reported.
// Kept in both programs (rule of the project): a public function of a library is decided, and what is read is not.
fn read_block(mut stdin: Stdin, block: &mut [u8]) -> usize
    ensures { result ≤ length block.new }
{
    let n = io::read_full(STDIN, block);
    if n < block.len() {
        let mut more = [0u8; 1];
        let got = streams::got(stdin.read(&mut more).ok());
        streams::count_read(got, &more);
    }
    n
}

fn main(rt: HostRuntime) {
    let mut block = room();
    let mut buf = io::large_buffer();
    let mut option = [0u8; 16];
    let k = streams::copied(rt.arg(2, &mut option).ok(), &option);
    let profile = profile_asked(&option[0..k]);
    let n = read_block(rt.stdin(), &mut block);
    let at = put_entry_reply(&mut buf, 0, profile, &block[0..n]);
    streams::flush(&buf, at);
}
