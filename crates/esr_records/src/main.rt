// Each line of standard input is one whole number, or with `--remarks` begins with one (#107), a value: a canonical block for each, the refusal or a line for each record. With a second option, `--strict` or
// `--nested`, values are read strictly (#110).
#![tactic(auto)]

use cli::Kind;
use line_reader::rest_asked;
use std::rt::Env;
use strict::profile_asked;

fn main(rt: HostRuntime) {
    let mut option = [0u8; 16];
    let n = streams::copied(rt.arg(1, &mut option).ok(), &option);
    let rest = rest_asked(&option[0..n]);
    let k = streams::copied(rt.arg(2, &mut option).ok(), &option);
    cli::answer(
        Kind::Records(profile_asked(&option[0..k])),
        rest,
        rt.stdin(),
    );
}
