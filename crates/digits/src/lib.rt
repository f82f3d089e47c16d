// Digits of a number, in base 2, 10 or 16, in a lent buffer: as many as are asked for, or the fewest that hold the number. In base 2 and 16
// they are groups of the number's bits, found by shifts, highest first; decimal ones are found by division, lowest first.
#![tactic(auto)]

ghost use Rattle.std.specs.Prelude.{◌*◌, ◌/◌, ◌^◌, ◌≤◌, ◌<◌, ◌≡◌};
ghost use Rattle.buffer.specs.Appending.{Appends};
ghost use Rattle.digits.specs.Digits.{digit_char, digits_of, radix_of, unpadded};
ghost use Rattle.digits.specs.Promises.{DigitsPut, NumberPut};

#[derive(Clone, Copy)]
pub enum Base {
    Binary,
    Decimal,
    Hex,
}

// More digits than a count of eight bits can ask for.
const MOST: usize = 256;

fn digit(d: u64) -> u8
    requires { d < 16 }
    ensures { result ≡ digit_char d }
{
    b"0123456789abcdef"[d as usize]
}

// Digits of `size` bits each, as far as the buffer goes. The next one stands on top of a word.
fn put_word(buf: &mut [u8], at: usize, size: usize, n: usize, value: u64) -> usize
    requires { (1 ≤ size) × (size ≤ 4) × (size * n ≤ 64) }
    ensures { Appends (digits_of (2 ^ size) n value) (at, buf.old) (result, buf.new) }
{
    let next = buffer::offset_after(at, n);
    let count = n.min(buf.len().saturating_sub(at));
    // None is asked for, or none has a place.
    if count == 0 {
        return next;
    }
    let mut top = value << (64 - size * n);
    for i in 0..count {
        buf[at + i] = digit(top >> (64 - size));
        top = top << size;
    }
    next
}

// Digits of `size` bits each, of which a word holds `most`. Those above them are 0.
fn put_groups(buf: &mut [u8], at: usize, size: usize, most: usize, n: usize, value: u64) -> usize
    requires { (1 ≤ size) × (size ≤ 4) × (size * most ≡ 64) × (n < 256) }
    ensures { Appends (digits_of (2 ^ size) n value) (at, buf.old) (result, buf.new) }
{
    if n <= most {
        return put_word(buf, at, size, n, value);
    }
    let zeros = [b'0'; MOST];
    let next = buffer::put_bytes(buf, at, &zeros[0..n - most]);
    put_word(buf, next, size, most, value)
}

// Decimal digits, as far as the buffer goes.
fn put_decimal(buf: &mut [u8], at: usize, n: usize, value: u64) -> usize
    ensures { Appends (digits_of 10 n value) (at, buf.old) (result, buf.new) }
{
    let count = n.min(buf.len().saturating_sub(at));
    let mut rest = value;
    for i in (0..n).rev() {
        if i < count {
            buf[at + i] = digit(rest % 10);
        }
        rest = rest / 10;
    }
    buffer::offset_after(at, n)
}

pub fn put_digits(buf: &mut [u8], at: usize, base: Base, count: u8, value: u64) -> usize
    ensures { DigitsPut (buf.old, at, base, count, value) (result, buf.new) }
{
    let n = count as usize;
    match base {
        Base::Binary => return put_groups(buf, at, 1, 64, n, value),
        Base::Decimal => return put_decimal(buf, at, n, value),
        Base::Hex => return put_groups(buf, at, 4, 16, n, value),
    }
}

// What stands above the lowest digit.
fn above(base: Base, v: u64) -> u64
    ensures { result ≡ v / radix_of base }
{
    match base {
        Base::Binary => return v >> 1,
        Base::Decimal => return v / 10,
        Base::Hex => return v >> 4,
    }
}

// The fewest digits that hold a number, and one for 0.
fn fewest(base: Base, v: u64) -> u8
    ensures { result ≡ unpadded (radix_of base) v }
{
    let mut n: u8 = 1;
    // No plainer: a division until nothing is left goes over nothing that a `for` or a chain could name.
    let mut rest = above(base, v);
    while 0 < rest {
        rest = above(base, rest);
        n += 1;
    }
    n
}

pub fn put_number(buf: &mut [u8], at: usize, base: Base, value: u64) -> usize
    ensures { NumberPut (buf.old, at, base, value) (result, buf.new) }
{
    put_digits(buf, at, base, fewest(base, value), value)
}
