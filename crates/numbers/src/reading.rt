// Reads a number's word: its value, or the place in the word that made it refuse. Reads hex pairs, and holds them against a checksum.
// The rules are in specs/Reading.antt; proofs/Numbers.antt shows that just what is spelled is read.
ghost use Rattle.std.specs.Prelude.{◌≡◌};
ghost use Rattle.numbers.specs.Reading.{AtMost, read_address as address_in, above, below, read_number as number_in, read_pair as pairIn, says_sum};

use crate::HIGHEST_ADDRESS;
use crate::digits::{digit_value, unsigned};
use units::Number;

// A word as an address.
pub fn read_address(w: &[u8]) -> Result<u64, usize>
    ensures { result ≡ address_in w.now }
{
    unsigned(w, 0, HIGHEST_ADDRESS)
}

// The number that lies so far above zero.
fn number_above(m: Result<u64, usize>) -> Result<Number, usize>
    requires { AtMost 2147483647 m }
    ensures { result ≡ above m }
{
    let n = m?;
    Ok(Number(n as i32))
}

// The number that lies so far below zero: the furthest has no opposite in 32 bits.
fn number_below(m: Result<u64, usize>) -> Result<Number, usize>
    requires { AtMost 2147483648 m }
    ensures { result ≡ below m }
{
    let v = m? as i64;
    Ok(Number((0 - v) as i32))
}

// A word as a number.
pub fn read_number(w: &[u8]) -> Result<Number, usize>
    ensures { result ≡ number_in w.now }
{
    if w.len() == 0 {
        return Err(0);
    }
    if w[0] == b'-' {
        return number_below(unsigned(w, 1, 2147483648));
    }
    if w[0] == b'+' {
        return number_above(unsigned(w, 1, 2147483647));
    }
    number_above(unsigned(w, 0, 2147483647))
}

// Two hex digits as a byte.
pub fn read_pair(h: u8, l: u8) -> Option<u8>
    ensures { result ≡ pairIn h l }
{
    let high = digit_value(h)?;
    let low = digit_value(l)?;
    Some((high * 16 + low) as u8)
}

// Does the pair say the checksum of s?
pub fn says_sum(s: &[u8], p: Option<u8>) -> bool
    ensures { result ≡ says_sum s.now p }
{
    p == Some(crate::checksum(s))
}
