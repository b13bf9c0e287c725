// Writes what a device sends into a lent buffer, piece by piece: a reply's head, an alert, an info line's text; and the end of each.
// specs/Reply.antt says how they compose.
#![tactic(auto)]

ghost use Rattle.std.specs.Prelude.{◌≡◌, [], ◌∷◌, ◌++◌, take, drop};
ghost use Rattle.laws.specs.Text.{text};
ghost use Rattle.laws.proofs.Spaced.{trail};
ghost use Rattle.numbers.specs.Checksum.{checksum, sum_text};
ghost use Rattle.buffer.specs.Wrote.{Wrote};
ghost use Rattle.reply.specs.Help.{help_text};
ghost use Rattle.reply.specs.Reply.{status, highest, body_of, body, alert_body, info_body, ending};

use crate::data::warning_name;
use crate::help::put_help;
use buffer::{put_byte, put_either, put_number, put_pair, put_text, put_two};

// No reply is longer, so that a buffer of this length has room for each.
pub const LONGEST_REPLY: usize = 96;

// As many bytes for the reply and for each info line of `help commands`.
pub const LONGEST_ANSWER: usize = 1152;

// What stands before a reply's data. The mask has a bit for each warning, the highest first.
#[derive(Clone, Copy)]
pub struct Head {
    pub address: u64,
    pub axis: u64,
    pub ok: bool,
    pub busy: bool,
    pub warnings: u32,
}

// What every message begins with: its mark, address and axis.
fn put_front(buf: &mut [u8], at: usize, mark: u8, address: u64, axis: u64) -> usize
    ensures { Wrote buf.old at (mark ∷ body_of address axis []) buf.new result }
{
    let a = put_byte(buf, at, mark);
    let b = put_two(buf, a, address);
    let c = put_byte(buf, b, b' ');
    put_number(buf, c, axis)
}

// IDLE or BUSY, and the highest warning, each behind a space.
fn put_state(buf: &mut [u8], at: usize, busy: bool, warnings: u32) -> usize
    ensures { Wrote buf.old at (trail (status busy ∷ highest warnings ∷ [])) buf.new result }
{
    let flag = put_either(buf, at, busy, b" BUSY ", b" IDLE ");
    put_text(buf, flag, warning_name(flags::highest(warnings)))
}

// A reply up to the space before its data.
pub fn put_head(buf: &mut [u8], at: usize, h: Head) -> usize
    ensures { Wrote buf.old at (text "@" ++ body h (text "")) buf.new result }
{
    let front = put_front(buf, at, b'@', h.address, h.axis);
    let verdict = put_either(buf, front, h.ok, b" OK", b" RJ");
    let state = put_state(buf, verdict, h.busy, h.warnings);
    put_byte(buf, state, b' ')
}

// An alert up to its end. It says nothing of OK or RJ.
pub fn put_alert(buf: &mut [u8], at: usize, h: Head) -> usize
    ensures { Wrote buf.old at (text "!" ++ alert_body h) buf.new result }
{
    let front = put_front(buf, at, b'!', h.address, h.axis);
    put_state(buf, front, h.busy, h.warnings)
}

// An info line of the device, up to its end, with the text of `help commands` at a place from 0.
pub fn put_info(buf: &mut [u8], at: usize, address: u64, place: usize) -> usize
    ensures { Wrote buf.old at (text "#" ++ info_body address 0 (help_text place)) buf.new result }
{
    let front = put_front(buf, at, b'#', address, 0);
    put_help(buf, front, place)
}

// The checksum of what stands in the buffer behind its first byte and before the place.
fn summed(buf: &[u8], at: usize) -> u8
    ensures { result ≡ checksum (drop 1 (take at buf.now)) }
{
    let end = at.min(buf.len());
    numbers::checksum(&buf[end.min(1)..end])
}

// That checksum behind a colon, if it is wanted.
pub fn put_sum(buf: &mut [u8], at: usize, wanted: bool) -> usize
    ensures { Wrote buf.old at (sum_text wanted (drop 1 (take at buf.old))) buf.new result }
{
    if wanted {
        let c = summed(buf, at);
        let colon = put_byte(buf, at, b':');
        put_pair(buf, colon, c)
    } else {
        at
    }
}

// The checksum, if it is wanted, and the footer.
pub fn put_end(buf: &mut [u8], at: usize, sum: bool) -> usize
    ensures { Wrote buf.old at (ending sum (drop 1 (take at buf.old))) buf.new result }
{
    let end = put_sum(buf, at, sum);
    put_text(buf, end, b"\r\n")
}

pub mod data;
pub mod help;
pub mod told;
