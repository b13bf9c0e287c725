// The parts of bench's input, and the texts that are printed for them. No record is known here.
// specs/Parts.antt says how an input is parted, and specs/Prints.antt what is printed.
ghost use Rattle.std.specs.Prelude.{◌≡◌, ◌==◌, ◌+◌, drop, position};
ghost use Rattle.buffer.specs.Wrote.{Wrote};
ghost use Rattle.input.specs.Parts.{first_part};
ghost use Rattle.input.specs.Prints.{is_report, told, reported, answered, caret};

use buffer::{put_byte, put_number, put_text};
use laws::NOWHERE;

// The place behind what a turn printed, and what the turn made of a record, or of a chain.
#[derive(Clone, Copy)]
pub struct Turned<T> {
    pub place: usize,
    pub next: T,
}

// Where the first LF from `at` on stands, counted from there.
fn lf_from(s: &[u8], at: usize) -> Option<usize>
    ensures { result ≡ position (λ c. c == 10) (drop at s.now) }
{
    s.iter().skip(at).position(|byte| *byte == b'\n')
}

// The place behind the first LF from `at` on, or the end.
pub fn part_end(s: &[u8], at: usize) -> usize
    ensures { result ≡ at + first_part (drop at s.now) }
{
    match lf_from(s, at) {
        Some(i) => at + i + 1,
        None => at.max(s.len()),
    }
}

// Is the first byte `R`?
pub fn is_report(part: &[u8]) -> bool
    ensures { result ≡ is_report part.now }
{
    part.starts_with(b"R")
}

// A name and a number, and LF.
pub fn put_told(out: &mut [u8], at: usize, name: &[u8], n: u8) -> usize
    ensures { Wrote out.old at (told name.now n) out.new result }
{
    let number = put_text(out, at, name);
    let end = put_number(out, number, n as u64);
    put_byte(out, end, 10)
}

// What a report came to, and the first bytes of its alert's buffer behind that.
pub fn put_reported(out: &mut [u8], at: usize, number: u8, long: usize, alert: &[u8]) -> usize
    ensures { Wrote out.old at (reported number long alert.now) out.new result }
{
    let end = put_told(out, at, b"report ", number);
    put_text(out, end, &alert[..long.min(alert.len())])
}

// The first bytes of a reply's buffer, or the number of the silence where there are none.
pub fn put_answer(out: &mut [u8], at: usize, number: u8, long: usize, reply: &[u8]) -> usize
    ensures { Wrote out.old at (answered number long reply.now) out.new result }
{
    if long == 0 {
        put_told(out, at, b"silent ", number)
    } else {
        put_text(out, at, &reply[..long.min(reply.len())])
    }
}

// A caret under the byte at a place of the line above, and LF; nothing where no place is told.
pub fn put_caret(out: &mut [u8], at: usize, place: u8) -> usize
    ensures { Wrote out.old at (caret place) out.new result }
{
    if place == NOWHERE {
        return at;
    }
    let mut next = at;
    for _ in 0..place {
        next = put_byte(out, next, b' ');
    }
    put_text(out, next, b"^\n")
}
