// A fault block on standard input: a line for each entry, what was lost between two, the counts, and where and why the walk ended. What is said of it
// is promised by `walk_reply`. With the option `--strict` or `--nested`, in the second place, values are read strictly (#110).
#![tactic(auto)]

ghost use Rattle.std.specs.Prelude.{◌≤◌, length, ◌≡◌};

use std::io::{Read, Stdin};
use std::rt::Env;
use streams::STDIN;
use strict::profile_asked;
use walk_reply::put_walk_reply;

// The longest block and a byte more, which tells one that is longer.
const BLOCK: usize = 65537;

// More than any reply takes: 5,041 entries with a line of at most 155 bytes each, and one of 11 for the step after it, are some 837,000 bytes.
const REPLY: usize = 1048576;

fn room() -> [u8; BLOCK]
    ensures { 65537 ≡ length result }
{
    [0; BLOCK]
}

fn reply_room() -> [u8; REPLY]
    ensures { 1048576 ≡ length result }
{
    [0; REPLY]
}

// Reads until the block is full or the input ends. What ended it is asked once more, so that an input that cannot be
// read is reported.
// Kept in both programs (rule of the project): a public function of a library is decided, and what is read is not.
fn read_block(mut stdin: Stdin, block: &mut [u8]) -> usize
    ensures { result ≤ length block.new }
{
    let n = io::read_full(STDIN, block);
    if n < block.len() {
        let mut more = [0u8; 1];
        let got = streams::got(stdin.read(&mut more).ok());
        streams::count_read(got, &more);
    }
    n
}

fn main(rt: HostRuntime) {
    let mut block = room();
    let mut buf = reply_room();
    let mut option = [0u8; 16];
    let k = streams::copied(rt.arg(2, &mut option).ok(), &option);
    let profile = profile_asked(&option[0..k]);
    let n = read_block(rt.stdin(), &mut block);
    let at = put_walk_reply(&mut buf, 0, profile, &block[0..n]);
    streams::flush(&buf, at);
}
