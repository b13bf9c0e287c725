// Reads the words behind `tools`.
// The rules are in specs/Reading.antt.
ghost use Rattle.std.specs.Prelude.{◌≡◌};
ghost use Rattle.numbers.specs.Reading.{read_number as number_in};
ghost use Rattle.words.specs.Cutting.{placed, words_at};
ghost use Rattle.words.specs.Find.{meaning_of};
ghost use Rattle.phrase.specs.Place.{Places};
ghost use Rattle.phrase.specs.Reading.{unknown, misspelt, store_at, read_storepos, parkings, read_parking, tools, read_tools};

use crate::operand::ended_at;
use crate::{MISSPELT, Numbered, UNKNOWN, Worded};
use command::{Command, DeviceCommand};
use laws::{Refusal, RefusedAt};
use units::Number;
use words::{Word, same_bytes};

// `tools storepos` with its number n and a position; both words by where they start.
fn store_at(
    start: usize,
    n: Result<Number, usize>,
    from: usize,
    v: &[u8],
) -> Result<Worded, RefusedAt>
    requires { Places start n × Places from (number_in v.now) }
    ensures { result ≡ store_at start n (placed from v.now) }
{
    let m = n.map_err(|p| Refusal::BadData.at(start + p))?;
    Numbered::StoreAt(m).made(from, numbers::reading::read_number(v))
}

// The words behind `tools storepos`: N, or N P, or N current.
fn read_storepos(s: &[u8], at: usize) -> Result<Worded, RefusedAt>
    ensures { result ≡ read_storepos (words_at s.now at) }
{
    let Word { start, end } = words::word_at(s, at);
    if start == end {
        return Err(MISSPELT);
    }
    let n = numbers::reading::read_number(&s[start..end]);
    let Word {
        start: from,
        end: to,
    } = words::word_at(s, end);
    if from == to {
        return Numbered::Store.made(start, n);
    }
    if words::start_of(s, to) < s.len() {
        return Err(MISSPELT);
    }
    let v = &s[from..to];
    if same_bytes(v, b"current") {
        return Numbered::StoreCurrent.made(start, n);
    }
    store_at(start, n, from, v)
}

// Behind `tools parking` and the word w.
#[tactic(auto, unfolding(words::specs::Find::meaning_of, laws::specs::Text::text))]
fn parking_of(s: &[u8], at: usize, w: &[u8]) -> Result<Worded, RefusedAt>
    ensures { result ≡ meaning_of misspelt w.now (parkings (words_at s.now at)) }
{
    if same_bytes(w, b"state") {
        return ended_at(s, at, Command::OfDevice(DeviceCommand::ParkingState));
    }
    if same_bytes(w, b"park") {
        return ended_at(s, at, Command::OfDevice(DeviceCommand::Park));
    }
    if same_bytes(w, b"unpark") {
        return ended_at(s, at, Command::OfDevice(DeviceCommand::Unpark));
    }
    Err(MISSPELT)
}

// The words behind `tools parking`.
#[tactic(auto, using(crate::proofs::Steps::parking_word))]
fn read_parking(s: &[u8], at: usize) -> Result<Worded, RefusedAt>
    ensures { result ≡ read_parking (words_at s.now at) }
{
    let Word { start, end } = words::word_at(s, at);
    parking_of(s, end, &s[start..end])
}

// Behind `tools` and the word w.
#[tactic(auto, unfolding(words::specs::Find::meaning_of, laws::specs::Text::text))]
fn tool_of(s: &[u8], at: usize, w: &[u8]) -> Result<Worded, RefusedAt>
    ensures { result ≡ meaning_of unknown w.now (tools at (words_at s.now at)) }
{
    if same_bytes(w, b"storepos") {
        return read_storepos(s, at);
    }
    if same_bytes(w, b"parking") {
        return read_parking(s, at);
    }
    if same_bytes(w, b"echo") {
        return Ok(Worded {
            command: Command::OfDevice(DeviceCommand::Echo),
            from: at,
        });
    }
    Err(UNKNOWN)
}

// The words behind `tools`.
#[tactic(auto, using(crate::proofs::Steps::tools_word))]
pub(crate) fn read_tools(s: &[u8], at: usize) -> Result<Worded, RefusedAt>
    ensures { result ≡ read_tools (words_at s.now at) }
{
    let Word { start, end } = words::word_at(s, at);
    tool_of(s, end, &s[start..end])
}
