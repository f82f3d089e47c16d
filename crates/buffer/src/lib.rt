// What every text is made of: bytes, and a text of the pool, written from an offset of a lent buffer on, as far as the buffer goes. Each
// gives the next offset, which counts on past the buffer's end, as C's snprintf does.
#![tactic(auto)]

ghost use Rattle.std.specs.Prelude.{◌≡◌};
ghost use Rattle.buffer.specs.Promises.{BytesPut, CodePut, OffsetAfter, TextPut};

// The offset after so many bytes. Past the last that a usize holds it stays there, at or past the end of every buffer.
pub fn offset_after(at: usize, count: usize) -> usize
    ensures { OffsetAfter (at, count) result }
{
    at.saturating_add(count)
}

pub fn put_bytes(buf: &mut [u8], at: usize, src: &[u8]) -> usize
    ensures { BytesPut (buf.old, at, src.now) (result, buf.new) }
{
    let count = src.len().min(buf.len().saturating_sub(at));
    // Kept as a loop (rule of the project): C's archive asks for memcpy and memset alone, and `copy_from_slice` for memmove.
    for j in 0..count {
        buf[at + j] = src[j];
    }
    offset_after(at, src.len())
}

// A pool and its starts come as two slices: kept, its promise `TextPut` names both.
pub fn put_text(buf: &mut [u8], at: usize, pool: &[u8], starts: &[u16], code: u16) -> usize
    ensures { TextPut (buf.old, at, pool.now, starts.now, code) (result, buf.new) }
{
    let n = lookup::length_in(starts, code) as usize;
    // A code past the last start has no bytes, and is not looked up.
    if n == 0 {
        return at;
    }
    let from = starts[code as usize] as usize;
    if pool.len() < from + n {
        return at;
    }
    put_bytes(buf, at, &pool[from..from + n])
}

// The text of a code, by the project's own pool.
pub fn put_code(buf: &mut [u8], at: usize, code: u16) -> usize
    ensures { CodePut (buf.old, at, code) (result, buf.new) }
{
    let pool = texts::pool_bytes();
    let starts = texts::text_starts();
    put_text(buf, at, pool, starts, code)
}
