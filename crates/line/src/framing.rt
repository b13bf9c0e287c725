// Reads the frame of a line: `/`, content, checksum and footer; or the refusal 2, 1 or 3.
// The rules are in specs/Reading.antt; proofs/FromTheEnd.antt shows that what is found from the end is the same.
ghost use Rattle.std.specs.Prelude.{◌≡◌, get_or};
ghost use Rattle.laws.specs.Lists.{span, all};
ghost use Rattle.laws.specs.Text.{slash};
ghost use Rattle.line.specs.Reading.{printable, is_end, is_footer, frame_of};
ghost use Rattle.line.specs.Refusals.{footer_size};
ghost use Rattle.line.specs.FromTheEnd.{plain, content_length, refused_body, body_read};

use crate::LONGEST_LINE;
use laws::Refusal;
use numbers::reading::{read_pair, says_sum};

// How many bytes from the front are no forbidden ones.
pub fn printable_len(s: &[u8]) -> usize
    ensures { result ≡ span printable s.now }
{
    s.iter().take_while(|c| 32 <= **c && **c <= 126).count()
}

// Are all bytes such as a content may have: no forbidden one, and no colon? Each is looked at, which is faster than to stop.
fn all_plain(s: &[u8]) -> bool
    ensures { result ≡ all plain s.now }
{
    s.iter().fold(true, |ok, c| ok & ((32 <= *c) & (*c <= 126) & (*c != b':')))
}

// Is the byte CR or LF?
#[tactic(auto, using(std::proofs::lemmas::Bool::Decides::nat_tests), unfolding(crate::specs::Reading::is_end))]
fn is_end(c: u8) -> bool
    ensures { result ≡ is_end c }
{
    matches!(c, b'\r' | b'\n')
}

// Are the bytes a footer?
#[tactic(auto, unfolding(crate::specs::Reading::is_footer))]
pub fn is_footer(f: &[u8]) -> bool
    ensures { result ≡ is_footer f.now }
{
    match f {
        [c] => is_end(*c),
        [c, d] => is_end(*c) && is_end(*d),
        _ => false,
    }
}

// How many bytes the footer has, at the end of a line that begins with `/`; none where the last byte is neither CR nor LF.
#[tactic(auto, using(crate::proofs::FromTheEnd::slash_alone), unfolding(crate::specs::Refusals::footer_size))]
fn footer_size(s: &[u8]) -> usize
    requires { get_or s.now 0 0 ≡ slash }
    ensures { result ≡ footer_size s.now }
{
    match s {
        [.., before, last] if is_end(*last) => if is_end(*before) { 2 } else { 1 },
        _ => 0,
    }
}

// How many bytes stand before the checksum, if a colon stands third from the end; else all.
#[tactic(auto, using(std::proofs::lemmas::Bool::Decides::nat_tests), unfolding(crate::specs::FromTheEnd::content_length))]
fn content_len(b: &[u8]) -> usize
    ensures { result ≡ content_length b.now }
{
    match b {
        [before @ .., b':', _, _] => before.len(),
        _ => b.len(),
    }
}

// The refusal of bytes with a colon out of place or a wrong checksum: a forbidden byte among them is told first.
#[tactic(auto, using(crate::proofs::FromTheEnd::some_forbidden, crate::proofs::FromTheEnd::none_forbidden))]
fn refusal(s: &[u8]) -> Result<usize, Refusal>
    ensures { result ≡ refused_body s.now }
{
    if printable_len(s) < s.len() {
        return Err(Refusal::NotLine);
    }
    Err(Refusal::BadSum)
}

// The bytes between `/` and footer.
fn read_body(b: &[u8]) -> Result<usize, Refusal>
    ensures { result ≡ body_read b.now }
{
    let c = content_len(b);
    if all_plain(&b[..c]) {
        if b.len() <= c {
            return Ok(c);
        }
        if says_sum(&b[..c], read_pair(b[c + 1], b[c + 2])) {
            return Ok(c);
        }
        return refusal(&b[c..]);
    }
    refusal(b)
}

// The frame of a line.
#[tactic(auto, using(crate::proofs::Frames::too_long_lem, crate::proofs::Frames::empty, crate::proofs::Frames::no_slash, crate::proofs::FromTheEnd::footer_fits, crate::proofs::FromTheEnd::footer_none, crate::proofs::FromTheEnd::footer_some))]
pub(crate) fn read_frame(s: &[u8]) -> Result<usize, Refusal>
    ensures { result ≡ frame_of s.now }
{
    if LONGEST_LINE < s.len() {
        return Err(Refusal::TooLong);
    }
    let [b'/', rest @ ..] = s else {
        return Err(Refusal::NotLine);
    };
    match footer_size(s) {
        0 => Err(Refusal::NotLine),
        f => read_body(&rest[..rest.len() - f]),
    }
}
