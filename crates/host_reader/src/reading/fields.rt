// The fields of a message's line: bytes and texts at a place, the front of every message, and the state in it.
// The rules are in specs/Reading.antt.
ghost use Rattle.std.specs.Prelude.{◌≡◌, ◌==◌, take, drop, get_or, option_map};
ghost use Rattle.numbers.specs.Reading.{value_of};
ghost use Rattle.words.specs.Cutting.{cut};
ghost use Rattle.words.specs.Find.{found};
ghost use Rattle.host_reader.specs.Reading.{stands, decimal, kind_of, front_in, state_in};

use crate::{Front, Kind, State};
use words::{find_word, same_bytes};

// The byte at a place, 0 beyond the end.
pub fn byte_at(s: &[u8], at: usize) -> u8
    ensures { result ≡ get_or s.now at 0 }
{
    s.get(at).copied().unwrap_or(0)
}

// What stands from a place on.
pub fn rest(s: &[u8], at: usize) -> &[u8]
    ensures { result.now ≡ drop at s.now }
{
    &s[at.min(s.len())..]
}

// The bytes from a place on, n of them at most.
pub fn field(s: &[u8], at: usize, n: usize) -> &[u8]
    ensures { result.now ≡ take n (drop at s.now) }
{
    let r = rest(s, at);
    &r[..n.min(r.len())]
}

// Does the text w stand at a place?
pub fn stands_at(s: &[u8], at: usize, w: &[u8]) -> bool
    ensures { result ≡ stands s.now at w.now }
{
    same_bytes(field(s, at, w.len()), w)
}

// The decimal digit at a place.
#[tactic(auto, using(numbers::proofs::Value::told_some, numbers::proofs::Value::told_none))]
fn digit_at(s: &[u8], at: usize) -> Option<u64>
    ensures { result ≡ decimal (value_of (get_or s.now at 0)) }
{
    match numbers::digits::digit_value(byte_at(s, at)) {
        Some(digit) if digit < 10 => Some(digit),
        Some(_) | None => None,
    }
}

// The kind that a mark stands for.
#[tactic(auto, unfolding(laws::specs::Text::text, laws::specs::Text::same, words::specs::Find::index, crate::specs::Reading::marks, crate::specs::Reading::kind_at))]
fn kind_of(mark: u8) -> Option<Kind>
    ensures { result ≡ kind_of mark }
{
    match mark {
        b'@' => Some(Kind::Reply),
        b'!' => Some(Kind::Alert),
        b'#' => Some(Kind::Info),
        _ => None,
    }
}

// Which of two words is w: is it the second?
pub(crate) fn second_of(w: &[u8], two: &[u8]) -> Option<bool>
    ensures { result ≡ option_map (λ k. k == 1) (found w.now (cut two.now)) }
{
    find_word(w, two).map(|place| place == 1)
}

// Mark, address and axis: the front of a message of any kind.
pub(crate) fn read_front(line: &[u8]) -> Option<Front>
    ensures { result ≡ front_in line.now }
{
    let kind = kind_of(byte_at(line, 0))?;
    let tens = digit_at(line, 1)?;
    let ones = digit_at(line, 2)?;
    let axis = digit_at(line, 4)?;
    let address = tens * 10 + ones;
    ((1 <= address) & stands_at(line, 3, b" ")).then_some(Front {
        kind,
        address,
        axis,
    })
}

// Status and warning, from the front of s on.
pub(crate) fn read_state(s: &[u8]) -> Option<State>
    ensures { result ≡ state_in s.now }
{
    let busy = second_of(field(s, 0, 4), b"IDLE BUSY")?;
    let warning = find_word(field(s, 5, 2), b"-- FD FQ FS FT FB FP FE WR")?;
    stands_at(s, 4, b" ").then_some(State { busy, warning })
}
