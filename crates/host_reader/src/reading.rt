// The host's reader of messages: which kind it was, what it says, and where its text stands.
// The rules are in specs/Reading.antt; proofs/Messages.antt shows that just what is spelled is read.
ghost use Rattle.std.specs.Prelude.{◌≡◌};
ghost use Rattle.host_reader.specs.Reading.{content_end, right_end, ended, text_at, reply_in, alert_in, info_in, said_in, read_message, number_of, message_refusal};

pub use crate::reading::fields::field;
use crate::reading::fields::{byte_at, read_front, read_state, rest, second_of, stands_at};
use crate::{ALERT_END, DATA_PLACE, FRONT_END, Kind, Message, Said, TEXT_PLACE, Text, data_byte};
use reply::LONGEST_REPLY;
use words::same_bytes;

// The place behind all that stands before checksum and footer.
fn content_end(line: &[u8]) -> usize
    ensures { result ≡ content_end line.now }
{
    let behind = rest(line, FRONT_END);
    let stop = behind.iter().position(|c| !data_byte(*c));
    FRONT_END + stop.unwrap_or(behind.len())
}

// Is e an end behind s: CR LF, or the checksum of s and CR LF?
#[tactic(auto, unfolding(laws::specs::Text::text))]
fn right_end(s: &[u8], e: &[u8]) -> bool
    ensures { result ≡ right_end s.now e.now }
{
    let bare = same_bytes(e, b"\r\n");
    let colon = stands_at(e, 0, b":");
    let footer = same_bytes(rest(e, 3), b"\r\n");
    let sum = numbers::reading::says_sum(
        s,
        numbers::reading::read_pair(byte_at(e, 1), byte_at(e, 2)),
    );
    bare | (colon & footer & sum)
}

// Does the line end rightly from this place on?
fn is_ended(line: &[u8], end: usize) -> bool
    ensures { result ≡ ended line.now end }
{
    right_end(rest(field(line, 0, end), 1), rest(line, end))
}

// The text from a place to the end.
#[tactic(auto, unfolding(laws::specs::Text::text))]
fn text_at(line: &[u8], at: usize, end: usize) -> Option<Text>
    ensures { result ≡ text_at line.now at end }
{
    let space = stands_at(line, at, b" ");
    if (at < end) & !space {
        Some(Text {
            place: at,
            length: end - at,
        })
    } else {
        None
    }
}

fn reply_in(line: &[u8], end: usize) -> Option<Said>
    ensures { result ≡ reply_in line.now end }
{
    let ok = second_of(field(line, 6, 2), b"RJ OK")?;
    let state = read_state(rest(line, 9))?;
    let data = text_at(line, DATA_PLACE, end)?;
    let a = stands_at(line, 5, b" ");
    let b = stands_at(line, 8, b" ");
    let c = stands_at(line, 16, b" ");
    (a & b & c).then_some(Said::Reply(ok, state, data))
}

#[tactic(auto, unfolding(laws::specs::Text::text))]
fn alert_in(line: &[u8], end: usize) -> Option<Said>
    ensures { result ≡ alert_in line.now end }
{
    let state = read_state(rest(line, 6))?;
    let space = stands_at(line, 5, b" ");
    (space & (end == ALERT_END)).then_some(Said::Alert(state))
}

#[tactic(auto, unfolding(laws::specs::Text::text))]
fn info_in(line: &[u8], end: usize) -> Option<Said>
    ensures { result ≡ info_in line.now end }
{
    if end == FRONT_END {
        return Some(Said::Info(Text {
            place: FRONT_END,
            length: 0,
        }));
    }
    let text = text_at(line, TEXT_PLACE, end)?;
    stands_at(line, 5, b" ").then_some(Said::Info(text))
}

// What is said behind the axis.
fn said_in(line: &[u8], kind: Kind, end: usize) -> Option<Said>
    ensures { result ≡ said_in line.now kind end }
{
    match kind {
        Kind::Reply => reply_in(line, end),
        Kind::Alert => alert_in(line, end),
        Kind::Info => info_in(line, end),
    }
}

#[tactic(auto, unfolding(laws::specs::Refusals::first_of))]
pub fn read_message(line: &[u8]) -> Option<Message>
    ensures read { result ≡ read_message line.now }
    ensures number { number_of result ≡ message_refusal line.now }
{
    if LONGEST_REPLY < line.len() {
        return None;
    }
    let end = content_end(line);
    let front = read_front(line)?;
    let said = said_in(line, front.kind, end)?;
    is_ended(line, end).then_some(Message {
        address: front.address,
        axis: front.axis,
        said,
    })
}

mod fields;
