// Each line of standard input is one whole number, or with `--remarks` begins with one (#107): `ok 0xH` or `refused N` for each.
#![tactic(auto)]

use cli::Kind;
use line_reader::rest_asked;
use std::rt::Env;

fn main(rt: HostRuntime) {
    let mut option = [0u8; 16];
    let n = streams::copied(rt.arg(1, &mut option).ok(), &option);
    cli::answer(Kind::Number, rest_asked(&option[0..n]), rt.stdin());
}
