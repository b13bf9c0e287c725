// The sum that the speed programs print: of every number and length that was answered, and of the bytes of the last buffer.
// It is a sum modulo 2^31.
ghost use Rattle.std.specs.Prelude.{◌≡◌, ◌+◌, ◌%◌, sum};

use std::fmt;

// How often a line was heard, and the sum over what was answered.
#[derive(Clone, Copy, Default)]
pub struct Tally {
    pub calls: u64,
    pub sum: u64,
}

impl fmt::Display for Tally {
    fn fmt<W: fmt::Write>(&self, f: &mut fmt::Formatter<W>) -> fmt::Result {
        let calls = self.calls;
        let sum = self.sum;
        write!(f, "{calls} {sum}")
    }
}

// How far a sum goes: 2^31.
pub const SUM_END: u64 = 2147483648;

// A sum and one more number.
pub fn added(sum: u64, n: u64) -> u64
    ensures { result ≡ (sum + n) % SUM_END }
{
    (sum % SUM_END + n % SUM_END) % SUM_END
}

// A sum and each byte.
pub fn added_bytes(first: u64, s: &[u8]) -> u64
    ensures { result ≡ (first + sum s.now) % SUM_END }
{
    let mut sum = first % SUM_END;
    for b in s {
        sum = added(sum, u64::from(*b));
    }
    sum
}
