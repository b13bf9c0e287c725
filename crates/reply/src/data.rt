// Writes a reply's data into a lent buffer: values, the list of warnings, the words of an echo, a refusal's name.
// specs/Data.antt says each of these texts; specs/Pieces.antt those of the inner writers.
ghost use Rattle.std.specs.Prelude.{◌≡◌, take, drop};
ghost use Rattle.laws.proofs.Spaced.{trail};
ghost use Rattle.words.specs.Cutting.{cut};
ghost use Rattle.buffer.specs.Wrote.{Wrote};
ghost use Rattle.reply.specs.Data.{warning_list, echoed, refusal_name};
ghost use Rattle.reply.specs.Pieces.{warning_at};

use buffer::{put_byte, put_text, put_two, put_word};
use laws::Refusal;
use words::Word;

// "first 17 words": one, and these behind it.
const MORE_WORDS: usize = 17 - 1;

// The name of the warning at a place from 0, or `--`.
#[tactic(auto, unfolding(laws::specs::Text::text, flags::specs::Flags::warning_names, crate::specs::Pieces::warning_at))]
pub(crate) fn warning_name(place: u32) -> &'static [u8]
    ensures { result.now ≡ warning_at place }
{
    match place {
        0 => b"FD",
        1 => b"FQ",
        2 => b"FS",
        3 => b"FT",
        4 => b"FB",
        5 => b"FP",
        6 => b"FE",
        7 => b"WR",
        _ => b"--",
    }
}

// The name of a refusal that is replied; no other has one. Each is a literal, which is stored at once.
#[tactic(auto, unfolding(laws::specs::Text::text, crate::specs::Data::refusal_name))]
pub(crate) fn put_refusal(buf: &mut [u8], at: usize, refusal: Refusal) -> usize
    ensures { Wrote buf.old at (refusal_name refusal) buf.new result }
{
    match refusal {
        Refusal::BadCommand => put_text(buf, at, b"BADCOMMAND"),
        Refusal::BadData => put_text(buf, at, b"BADDATA"),
        Refusal::BadAxis => put_text(buf, at, b"BADAXIS"),
        Refusal::DeviceOnly => put_text(buf, at, b"DEVICEONLY"),
        Refusal::NoAccess => put_text(buf, at, b"NOACCESS"),
        Refusal::Parked => put_text(buf, at, b"PARKED"),
        Refusal::StatusBusy => put_text(buf, at, b"STATUSBUSY"),
        _ => at,
    }
}

// The number of warnings that a mask has, and their names.
pub(crate) fn put_warnings(buf: &mut [u8], at: usize, m: u32) -> usize
    ensures { Wrote buf.old at (warning_list m) buf.new result }
{
    let mut next = put_two(buf, at, flags::number(m) as u64);
    let mut left = m;
    for i in 0..8 {
        if left % 2 == 1 {
            next = put_word(buf, next, warning_name(i));
        }
        left /= 2;
    }
    next
}

// The next words of an echo, from a place of s on, each behind a space.
fn put_more(buf: &mut [u8], at: usize, s: &[u8], from: usize) -> usize
    ensures { Wrote buf.old at (trail (take 16 (cut (drop from s.now)))) buf.new result }
{
    let mut next = at;
    let mut place = from;
    for _ in 0..MORE_WORDS {
        let Word { start, end } = words::word_at(s, place);
        if start == end {
            return next;
        }
        next = put_word(buf, next, &s[start..end]);
        place = end;
    }
    next
}

// The first 17 words from a place of s on.
pub(crate) fn put_echo(buf: &mut [u8], at: usize, s: &[u8], from: usize) -> usize
    ensures { Wrote buf.old at (echoed (cut (drop from s.now))) buf.new result }
{
    let Word { start, end } = words::word_at(s, from);
    if start == end {
        return put_byte(buf, at, b'0');
    }
    let next = put_text(buf, at, &s[start..end]);
    put_more(buf, next, s, end)
}
