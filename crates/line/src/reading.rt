// Reads a line: silence with 2, 1, 3 or 4, and the place of 4; or an address, an axis and what the command's words come to.
// It is read in two steps, so that a line for another address is not read behind it. The rules are in specs/Reading.antt and
// specs/Opening.antt; proofs/Demand3.antt shows that just what is spelled is read.
ghost use Rattle.std.specs.Prelude.{◌≡◌, length, take};
ghost use Rattle.words.specs.Cutting.{bytes_of, words_at, head_word};
ghost use Rattle.phrase.specs.Reading.{read_command};
ghost use Rattle.numbers.specs.Reading.{digit_told};
ghost use Rattle.line.specs.Reading.{sent, begins_number, starts_number, axis_of, number_of, place_read, asked_by, read_asked};
ghost use Rattle.line.specs.Refusals.{refusal_of};
ghost use Rattle.line.specs.Place.{place_of};
ghost use Rattle.line.specs.Opening.{digit_at, AddressPlaces, addressee, open_words, open_line, read_on};

use crate::framing::read_frame;
use crate::{Addressed, Opening};
use laws::{Refusal, RefusedAt};
use numbers::digits::digit_value;

// Is it a digit or a sign?
#[tactic(auto, using(std::proofs::lemmas::Bool::Decides::nat_tests, numbers::proofs::Value::told_some, numbers::proofs::Value::told_none), unfolding(crate::specs::Reading::begins_number))]
fn begins_number(c: u8) -> bool
    ensures { result ≡ begins_number c }
{
    match c {
        b'+' | b'-' => true,
        _ => digit_value(c).is_some_and(|d| d < 10),
    }
}

// Does the first word from at on begin as a number? Its first byte tells.
#[tactic(auto, using(crate::proofs::Steps::number_first, crate::proofs::Steps::number_none))]
fn number_at(s: &[u8], at: usize) -> bool
    ensures { result ≡ starts_number (head_word (bytes_of (words_at s.now at))) }
{
    s.get(words::start_of(s, at))
        .is_some_and(|c| begins_number(*c))
}

// The digit that a word from i on is, if it has one byte, or none. Two bytes tell.
#[tactic(auto, using(std::proofs::lemmas::Bool::Decides::nat_tests), unfolding(crate::specs::Opening::digit_at))]
fn digit_at(s: &[u8], i: usize) -> Option<u64>
    ensures { result ≡ digit_told (digit_at s.now i) }
{
    if s.len() <= i {
        return None;
    }
    if s.len() - i == 1 || s[i + 1] == b' ' {
        digit_value(s[i])
    } else {
        None
    }
}

// What a line up to the end of its content says to an address and an axis, in the words of a command from a place on.
fn addressed(s: &[u8], at: usize, address: u64, axis: u64) -> Addressed
    ensures { result ≡ sent address axis (length s.now) (read_command (words_at s.now at)) }
{
    Addressed {
        address,
        axis,
        end: s.len(),
        words: phrase::reading::read_command(s, at),
    }
}

// The words behind the address n, from a place on.
fn read_axis(s: &[u8], at: usize, n: u64) -> Result<Addressed, RefusedAt>
    ensures { result ≡ axis_of n (length s.now) (words_at s.now at) }
{
    let i = words::start_of(s, at);
    match digit_at(s, i) {
        Some(d) if d < 10 => Ok(addressed(s, i + 1, n, d)),
        _ => Ok(addressed(s, at, n, 0)),
    }
}

// A first word that starts at a place and comes to a as an address; the content goes on from a place up to its end.
fn addressee_of(
    start: usize,
    a: Result<u64, usize>,
    at: usize,
    end: usize,
) -> Result<Opening, RefusedAt>
    requires { AddressPlaces start a }
    ensures { result ≡ addressee start a at end }
{
    let n = a.map_err(|p| Refusal::BadAddress.at(start + p))?;
    Ok(Opening::To(n, at, end))
}

// The address of a line up to the end of its content.
#[tactic(auto, using(crate::proofs::Opened::open_address, crate::proofs::Opened::open_bare, crate::proofs::Opened::address_places))]
fn open_words(s: &[u8]) -> Result<Opening, RefusedAt>
    ensures { result ≡ open_words s.now }
{
    if number_at(s, 1) {
        let w = words::word_at(s, 1);
        let start = w.start;
        let end = w.end;
        let a = numbers::reading::read_address(&s[start..end]);
        return addressee_of(start, a, end, s.len());
    }
    Ok(Opening::Bare(s.len()))
}

// A line's frame and address.
pub fn open_line(s: &[u8]) -> Result<Opening, RefusedAt>
    ensures { result ≡ open_line s.now }
{
    let c = read_frame(s).map_err(Refusal::nowhere)?;
    open_words(&s[..c + 1])
}

// The line up to a place, or all of it.
fn up_to(s: &[u8], end: usize) -> &[u8]
    ensures { result.now ≡ take end s.now }
{
    s.get(..end).unwrap_or(s)
}

// A line, from its opening on.
pub fn read_line(s: &[u8], o: Result<Opening, RefusedAt>) -> Result<Addressed, RefusedAt>
    ensures read { result ≡ read_on s.now o }
    ensures number { o ≡ open_line s.now → number_of result ≡ refusal_of s.now }
    ensures place { o ≡ open_line s.now → place_read result ≡ place_of s.now }
    ensures asked { o ≡ open_line s.now → asked_by s.now result ≡ read_asked s.now }
{
    match o? {
        Opening::Bare(end) => Ok(addressed(up_to(s, end), 1, 0, 0)),
        Opening::To(n, at, end) => read_axis(up_to(s, end), at, n),
    }
}
