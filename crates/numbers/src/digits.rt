// Reads digits: one digit, and an unsigned number from a place of its word on, or the place of the refusal.
// The rules are in specs/Reading.antt.
ghost use Rattle.std.specs.Prelude.{◌≡◌, ◌≤◌, drop};
ghost use Rattle.numbers.specs.Reading.{value_of, digit_told, digits_from, starts_hex, unsigned_from};

// What a digit stands for, in either case; none where the byte is no digit.
#[tactic(auto, using(std::proofs::lemmas::Bool::Decides::nat_tests), unfolding(crate::specs::Reading::value_of))]
pub fn digit_value(c: u8) -> Option<u64>
    ensures { result ≡ digit_told (value_of c) }
{
    match c {
        b'0'..=b'9' => Some(u64::from(c - b'0')),
        b'A'..=b'F' => Some(u64::from(c - b'A') + 10),
        b'a'..=b'f' => Some(u64::from(c - b'a') + 10),
        _ => None,
    }
}

// One digit or more from a place on, none of which carries the value past `most`.
fn digits(w: &[u8], from: usize, base: u8, most: u32) -> Result<u64, usize>
    requires { base ≤ 16 }
    ensures { result ≡ digits_from base most from (drop from w.now) }
{
    if w.len() <= from {
        return Err(from);
    }
    let b = base as u64;
    let m = most as u64;
    let mut n: u64 = 0;
    for i in from..w.len() {
        match digit_value(w[i]) {
            Some(d) if d < b && n * b + d <= m => n = n * b + d,
            _ => return Err(i),
        }
    }
    Ok(n)
}

// Does `0x` stand at the place?
#[tactic(auto, using(crate::proofs::Scan::hex_end))]
fn starts_hex(w: &[u8], from: usize) -> bool
    ensures { result ≡ starts_hex (drop from w.now) }
{
    match w.get(from..) {
        Some(rest) => rest.starts_with(b"0x"),
        None => false,
    }
}

// `0x` and hex digits, or decimal digits, from a place on.
pub(crate) fn unsigned(w: &[u8], from: usize, most: u32) -> Result<u64, usize>
    ensures { result ≡ unsigned_from most from (drop from w.now) }
{
    if starts_hex(w, from) {
        digits(w, from + 2, 16, most)
    } else {
        digits(w, from, 10, most)
    }
}
