// Standard input and output: what was read, counted, and what is held in a buffer, written. No contract can say what the system does, so where it
// fails that is told on standard error.
#![tactic(auto)]

ghost use Rattle.streams.specs.Promises.{Copied, Flushed, Got, Read};
ghost use Rattle.std.specs.Prelude.{take, ◌≡◌};

// The numbers of the process's streams.
pub const STDIN: i32 = 0;

pub const STDOUT: i32 = 1;

pub const STDERR: i32 = 2;

// The offset that `flush` answers: nothing is held before it.
const NOTHING_HELD: usize = 0;

// What a read answered, as one number: -1 where it failed.
// Kept: it is public and promises the -1 (`Got`), of which `count_read` is told.
pub fn got(answer: Option<usize>) -> isize
    ensures { Got answer result }
{
    match answer {
        Some(n) => isize::try_from(n).unwrap_or(isize::MAX),
        None => -1,
    }
}

// How many bytes of a buffer were read, by what the read answered: 0 at the end of the input, and where it cannot
// be read.
pub fn count_read(got: isize, buf: &[u8]) -> usize
    ensures { Read (got, buf.now) result }
{
    if got < 0 {
        io::write_all(STDERR, b"input could not be read\n");
    }
    io::count(got, buf)
}

// How many bytes at the start of a buffer an argument takes, by what copying it there answered: 0 where it is missing,
// or longer than the buffer.
pub fn copied(answer: Option<usize>, buf: &[u8]) -> usize
    ensures { Copied (answer, buf.now) result }
{
    match answer {
        Some(n) => n.min(buf.len()),
        None => 0,
    }
}

// The bytes before the offset, or all where the offset lies past the end.
fn held(buf: &[u8], at: usize) -> &[u8]
    ensures { result.now ≡ take at buf.now }
{
    &buf[..at.min(buf.len())]
}

pub fn flush(buf: &[u8], at: usize) -> usize
    ensures { Flushed (buf.now, at) result }
{
    if !io::write_all(STDOUT, held(buf, at)) {
        io::write_all(STDERR, b"output could not be written\n");
    }
    NOTHING_HELD
}
