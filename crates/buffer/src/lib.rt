// Writes into a lent buffer: each writer stores the bytes that have a place there and gives the place after the last of them.
// A byte that has no place is not written, so that no writer asks for room; specs/Wrote.antt says what each one leaves.
#![tactic(auto)]

ghost use Rattle.std.specs.Prelude.{◌≡◌, cond, ◌∷◌, [], ◌++◌, ◌%◌, ◌+◌, ◌≤◌, length};
ghost use Rattle.laws.specs.Text.{space};
ghost use Rattle.numbers.specs.Decimal.{digits, decimal, two_digits, hex_digit, hex_pair};
ghost use Rattle.buffer.specs.Wrote.{Wrote};

use units::Number;

// One byte, if it has a place.
pub fn put_byte(buf: &mut [u8], at: usize, b: u8) -> usize
    ensures { Wrote buf.old at (b ∷ []) buf.new result }
{
    if buf.len() <= at {
        return at;
    }
    buf[at] = b;
    at + 1
}

// Asks for room once.
pub fn put_text(buf: &mut [u8], at: usize, text: &[u8]) -> usize
    ensures { Wrote buf.old at text.now buf.new result }
{
    if at <= buf.len() && text.len() <= buf.len() - at {
        put_whole(buf, at, text)
    } else {
        put_front(buf, at, text)
    }
}

// A text that has room, byte by byte: most have some few bytes, and a literal's are stored at once.
fn put_whole(buf: &mut [u8], at: usize, text: &[u8]) -> usize
    requires { at + length text.now ≤ length buf.old }
    ensures { Wrote buf.old at text.now buf.new result }
{
    for i in 0..text.len() {
        buf[at + i] = text[i];
    }
    at + text.len()
}

// As much of a text as has a place. Seldom called, and kept apart, so that the writers that call it need no frame for its call of memcpy.
#[cold]
#[inline(never)]
fn put_front(buf: &mut [u8], at: usize, text: &[u8]) -> usize
    ensures { Wrote buf.old at text.now buf.new result }
{
    if at < buf.len() {
        let written = text.len().min(buf.len() - at);
        buf[at..at + written].copy_from_slice(&text[..written]);
        at + written
    } else {
        at
    }
}

// A word behind a space.
pub fn put_word(buf: &mut [u8], at: usize, w: &[u8]) -> usize
    ensures { Wrote buf.old at (space ∷ w.now) buf.new result }
{
    let next = put_byte(buf, at, b' ');
    put_text(buf, next, w)
}

// One text or the other.
pub fn put_either(buf: &mut [u8], at: usize, first: bool, a: &[u8], b: &[u8]) -> usize
    ensures { Wrote buf.old at (cond first a.now b.now) buf.new result }
{
    if first {
        put_text(buf, at, a)
    } else {
        put_text(buf, at, b)
    }
}

// One digit at once; more by recursion.
pub fn put_number(buf: &mut [u8], at: usize, n: u64) -> usize
    ensures { Wrote buf.old at (digits n) buf.new result }
{
    if 10 <= n {
        put_digits(buf, at, n)
    } else {
        put_byte(buf, at, b'0' + n as u8)
    }
}

// "A number is written as its tenth, written likewise, and then its last digit".
fn put_digits(buf: &mut [u8], at: usize, n: u64) -> usize
    ensures { Wrote buf.old at (digits n) buf.new result }
{
    let last = (n % 10) as u8;
    if n < 10 {
        put_byte(buf, at, b'0' + last)
    } else {
        let next = put_digits(buf, at, n / 10);
        put_byte(buf, next, b'0' + last)
    }
}

// "negatives begin with `-`"
pub fn put_signed(buf: &mut [u8], at: usize, v: Number) -> usize
    ensures { Wrote buf.old at (decimal v.0) buf.new result }
{
    let n = v.magnitude();
    if v.negative() {
        let next = put_byte(buf, at, b'-');
        put_number(buf, next, n)
    } else {
        put_number(buf, at, n)
    }
}

// A text, and a number behind it.
pub fn put_numbered(buf: &mut [u8], at: usize, t: &[u8], n: Number) -> usize
    ensures { Wrote buf.old at (t.now ++ decimal n.0) buf.new result }
{
    let next = put_text(buf, at, t);
    put_signed(buf, next, n)
}

// The last two digits of n.
pub fn put_two(buf: &mut [u8], at: usize, n: u64) -> usize
    ensures { Wrote buf.old at (two_digits n) buf.new result }
{
    let next = put_byte(buf, at, b'0' + (n / 10 % 10) as u8);
    put_byte(buf, next, b'0' + (n % 10) as u8)
}

// The lower hex digit of n, in upper case.
#[tactic(auto, using(std::proofs::lemmas::Bool::Decides::nat_tests), unfolding(numbers::specs::Decimal::hex_digit))]
fn hex_digit(n: u8) -> u8
    ensures { result ≡ hex_digit (n % 16) }
{
    match n % 16 {
        d @ 0..=9 => b'0' + d,
        d => b'A' + d - 10,
    }
}

pub fn put_pair(buf: &mut [u8], at: usize, n: u8) -> usize
    ensures { Wrote buf.old at (hex_pair n) buf.new result }
{
    let next = put_byte(buf, at, hex_digit(n / 16));
    put_byte(buf, next, hex_digit(n))
}
