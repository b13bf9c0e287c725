// What a number's word comes to, as types; the sum of bytes. The code that reads a number stands in reading.rt.
// The spelling is in specs/Spelling.antt, and proofs/Numbers.antt shows that just that is read.
#![tactic(auto)]

ghost use Rattle.std.specs.Prelude.{◌≡◌};
ghost use Rattle.numbers.specs.Checksum.{checksum as checksumOf};

use units::Number;

// "an unsigned number 0 to 99"
pub const HIGHEST_ADDRESS: u32 = 99;

// The sum of the bytes, negated modulo 256.
pub fn checksum(s: &[u8]) -> u8
    ensures { result ≡ checksumOf s.now }
{
    let sum = s.iter().fold(0u8, |sum, byte| sum.wrapping_add(*byte));
    sum.wrapping_neg()
}

pub mod digits;
pub mod reading;
