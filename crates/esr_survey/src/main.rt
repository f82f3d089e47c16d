// A fleet's values, a number on each line of standard input, counted by class (#101). What lines count is promised by `number_lines` and `survey`, what is said of
// the counts by `survey_reply`; here lines of any length are read and the survey is written, through fixed buffers.
//
// Without a word it counts the first 4,096 lines. `--all` counts every line, a run of 4,096 after the other, and says how many values were refused too. With a second
// option, `--strict` or `--nested`, values are read strictly (#110).
#![tactic(auto)]

ghost use Rattle.std.specs.Prelude.{length, ◌≡◌};

use number_lines::Lines;
use std::io::{Read, Stdin};
use std::rt::Env;
use streams::STDERR;
use strict::{Profile, profile_asked};
use survey_reply::PLACES;

// What the options ask for.
#[derive(Clone, Copy)]
struct Asked {
    all: bool,
    profile: Profile,
}

// "the first 4,096 lines"
const RUN: usize = 4096;

fn run_places() -> [u64; RUN]
    ensures { 4096 ≡ length result }
{
    [0; RUN]
}

// Counts the lines of a run, and adds that to the totals.
fn count_run(asked: Asked, lines: Lines, run: &[u64], totals: &mut [u64]) {
    let n = lines.numbers.min(run.len());
    let mut counts = [0u32; 64];
    // Never refused: the table has 64 places, and a run has 4,096.
    let Ok(tally) = survey::survey(asked.profile, &run[..n], &mut counts) else {
        return;
    };
    if !survey_reply::add_run(totals, &counts, tally.refused, lines.none as u64) {
        io::write_all(STDERR, b"esr: a count does not fit 64 bits\n");
    }
}

// Where all are counted, a run that is full is, and another begins.
fn next_run(asked: Asked, lines: Lines, run: &[u64], totals: &mut [u64]) -> Lines {
    if !asked.all {
        return lines;
    }
    if lines.is_full(run.len()) {
        count_run(asked, lines, run, totals);
        return Lines::start();
    }
    lines
}

// Takes the lines of a part of the input: of the first run, or of as many as there are.
#[tactic(auto, using(number_lines::proofs::Laws::lines_moved))]
fn take_part(asked: Asked, from: Lines, part: &[u8], run: &mut [u64], totals: &mut [u64]) -> Lines {
    let mut lines = from;
    let mut next: usize = 0;
    // No plainer: each turn goes on where the last one stopped to take lines.
    while next < part.len() {
        if lines.is_full(run.len()) {
            return lines;
        }
        let taken = number_lines::take_lines(lines, part, next, run);
        next = taken.next;
        lines = next_run(asked, taken.lines, run, totals);
    }
    lines
}

// The lines that are left at the end of the input.
fn count_last(asked: Asked, lines: Lines, run: &mut [u64], totals: &mut [u64]) {
    let last = number_lines::take_last(lines, run);
    count_run(asked, last, run, totals);
}

// A proved loop has to end, and nothing says that an input does: no run uses up this number of reads.
fn count_values(
    asked: Asked,
    mut stdin: Stdin,
    part: &mut [u8],
    run: &mut [u64],
    totals: &mut [u64],
) {
    let mut lines = Lines::start();
    'reads: for _ in 0..u64::MAX {
        // A run that is full here is the only one: nothing more is read.
        if lines.is_full(run.len()) {
            count_run(asked, lines, run, totals);
            return;
        }
        let got = streams::got(stdin.read(part).ok());
        let n = streams::count_read(got, part);
        if n == 0 {
            count_last(asked, lines, run, totals);
            return;
        }
        lines = take_part(asked, lines, &part[..n], run, totals);
    }
}

fn options(rt: HostRuntime) -> Asked {
    let mut word = [0u8; 16];
    let n = streams::copied(rt.arg(1, &mut word).ok(), &word);
    let all = words::is_word(&word[0..n], b"--all");
    let k = streams::copied(rt.arg(2, &mut word).ok(), &word);
    let profile = profile_asked(&word[0..k]);
    Asked { all, profile }
}

fn main(rt: HostRuntime) {
    let mut part = io::large_buffer();
    let mut run = run_places();
    let mut totals = [0u64; PLACES];
    let asked = options(rt);
    count_values(asked, rt.stdin(), &mut part, &mut run, &mut totals);
    let mut text = io::buffer();
    let end = survey_reply::put_survey(&mut text, 0, &totals, asked.all);
    streams::flush(&text, end);
}
