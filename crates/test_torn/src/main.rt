// Torn entries on their whole way, through read_entry and decode. Standard input has sound entries of every layout; each is torn in every
// way below, and what is still accepted is counted. Erased flash reads 0xFF, so what was not written is all ones.
#![tactic(auto)]

use streams::{STDIN, STDOUT};

const SIZE: usize = 13;

// Where the ESR's two words begin in an entry.
const UPPER: usize = 5;

const LOWER: usize = 9;

// How many entries were tried, how many of them differ from the sound entry and how many of those are accepted; the ESR of the first
// accepted one, before and after.
#[derive(Clone, Copy)]
struct Tally {
    tried: u64,
    changed: u64,
    accepted: u64,
    before: u64,
    after: u64,
}

fn one_more(count: u64) -> u64 {
    count.wrapping_add(1)
}

fn is_accepted(block: &[u8]) -> bool {
    match entry::read_entry(block) {
        Ok(entry) => !esr::decode(entry.esr).refusal.is_refused(),
        Err(_) => false,
    }
}

// 0 where the entry is refused.
fn esr_of(block: &[u8]) -> u64 {
    match entry::read_entry(block) {
        Ok(entry) => entry.esr,
        Err(_) => 0,
    }
}

// A copy of an entry whose bytes from one offset to before another were not written.
fn worn(block: &[u8], from: usize, to: usize) -> [u8; SIZE] {
    let mut copy = [0xFFu8; SIZE];
    // By offsets, no plainer by `enumerate` over the copy: that took twice the instructions.
    for i in 0..SIZE.min(block.len()) {
        if i < from || to <= i {
            copy[i] = block[i];
        }
    }
    copy
}

impl Tally {
    fn none() -> Self {
        Self {
            tried: 0,
            changed: 0,
            accepted: 0,
            before: 0,
            after: 0,
        }
    }

    fn with_whole(mut self, sound: &[u8]) -> Self {
        self.tried = one_more(self.tried);
        if is_accepted(sound) {
            self.accepted = one_more(self.accepted);
        }
        self
    }

    fn with(mut self, sound: &[u8], torn: &[u8]) -> Self {
        self.tried = one_more(self.tried);
        if check::same(sound, torn) {
            return self;
        }
        self.changed = one_more(self.changed);
        if is_accepted(torn) {
            if self.accepted == 0 {
                self.before = esr_of(sound);
                self.after = esr_of(torn);
            }
            self.accepted = one_more(self.accepted);
        }
        self
    }

    // Each cut from an offset on: what lies from there to before another was not written.
    fn with_cuts(self, block: &[u8], from: usize, to: usize) -> Self {
        let mut tally = self;
        for start in from..to {
            tally = tally.with(block, &worn(block, start, to));
        }
        tally
    }

    fn with_words(self, block: &[u8]) -> Self {
        let upper = worn(block, UPPER, LOWER);
        let lower = worn(block, LOWER, SIZE);
        self.with(block, &upper).with(block, &lower)
    }
}

fn say_count(name: &[u8], count: u64) {
    io::write_all(STDOUT, name);
    io::print_decimal(STDOUT, count);
}

// What becomes of an entry: nothing, or the ways in which it is torn.
#[derive(Clone, Copy)]
enum Way {
    Whole,
    EitherWord,
    EntryPrefix,
    UpperPrefix,
}

fn with_torn(tally: Tally, way: Way, block: &[u8]) -> Tally {
    match way {
        Way::Whole => tally.with_whole(block),
        Way::EitherWord => tally.with_words(block),
        Way::EntryPrefix => tally.with_cuts(block, 0, SIZE),
        Way::UpperPrefix => tally.with_cuts(block, UPPER + 1, LOWER),
    }
}

fn counts_of(blocks: &[u8], way: Way) -> Tally {
    let mut counts = Tally::none();
    for block in blocks.chunks_exact(SIZE) {
        counts = with_torn(counts, way, block);
    }
    counts
}

fn say_tally(name: &[u8], tally: Tally) {
    say_count(name, tally.tried);
    say_count(b" changed ", tally.changed);
    say_count(b" accepted ", tally.accepted);
    io::write_all(STDOUT, b"\n");
    if tally.accepted == 0 {
        return;
    }
    io::write_all(STDOUT, b"first accepted 0x");
    io::print_hex(STDOUT, tally.before, 1);
    io::write_all(STDOUT, b" as 0x");
    io::print_hex(STDOUT, tally.after, 1);
    io::write_all(STDOUT, b"\n");
}

fn report(blocks: &[u8]) {
    let whole = counts_of(blocks, Way::Whole);
    say_count(b"entries ", whole.tried);
    say_count(b" accepted ", whole.accepted);
    io::write_all(STDOUT, b"\n");
    say_tally(b"either word all ones ", counts_of(blocks, Way::EitherWord));
    say_tally(
        b"a prefix of the entry written ",
        counts_of(blocks, Way::EntryPrefix),
    );
    say_tally(
        b"a prefix of the upper word written, the lower whole ",
        counts_of(blocks, Way::UpperPrefix),
    );
}

fn main() {
    let mut room = io::large_buffer();
    let n = io::read_full(STDIN, &mut room);
    report(&room[0..n]);
}
