// Reads a command's words, from a place of the content on: the command, or the refusal 10 or 11 and its place.
// The rules are in specs/Reading.antt; proofs/Rows.antt shows that just what is spelled is read.
ghost use Rattle.std.specs.Prelude.{◌≡◌};
ghost use Rattle.words.specs.Cutting.{bytes_of, words_at};
ghost use Rattle.words.specs.Find.{meaning_of};
ghost use Rattle.phrase.specs.Reading.{unknown, read_warnings, read_help, firsts, read_command};
ghost use Rattle.phrase.specs.Refusals.{words_number, words_refusal};
ghost use Rattle.phrase.specs.Place.{place_told, words_place};

use crate::operand::ended_at;
use crate::{MISSPELT, UNKNOWN, Worded};
use command::{AxisCommand, Command, DeviceCommand};
use laws::RefusedAt;
use words::{Word, same_bytes};

// The words behind `warnings`.
#[tactic(auto, using(crate::proofs::Steps::warnings_alone, crate::proofs::Steps::warnings_clear, crate::proofs::Steps::warnings_other), unfolding(laws::specs::Text::text))]
fn read_warnings(s: &[u8], at: usize) -> Result<Worded, RefusedAt>
    ensures { result ≡ read_warnings (words_at s.now at) }
{
    let Word { start, end } = words::word_at(s, at);
    if start == end {
        return Ok(Worded {
            command: Command::OfAxes(AxisCommand::Warnings),
            from: 0,
        });
    }
    if same_bytes(&s[start..end], b"clear") {
        return ended_at(s, end, Command::OfAxes(AxisCommand::WarningsClear));
    }
    Err(MISSPELT)
}

// The words behind `help`.
#[tactic(auto, using(crate::proofs::Steps::help_commands, crate::proofs::Steps::help_other), unfolding(laws::specs::Text::text))]
fn read_help(s: &[u8], at: usize) -> Result<Worded, RefusedAt>
    ensures { result ≡ read_help (words_at s.now at) }
{
    let Word { start, end } = words::word_at(s, at);
    if same_bytes(&s[start..end], b"commands") {
        return ended_at(s, end, Command::OfDevice(DeviceCommand::Help));
    }
    Err(MISSPELT)
}

// Behind the first word w.
#[tactic(auto, unfolding(words::specs::Find::meaning_of, laws::specs::Text::text))]
fn first_of(s: &[u8], at: usize, w: &[u8]) -> Result<Worded, RefusedAt>
    ensures { result ≡ meaning_of unknown w.now (firsts (words_at s.now at)) }
{
    if same_bytes(w, b"home") {
        return ended_at(s, at, Command::OfAxes(AxisCommand::Home));
    }
    if same_bytes(w, b"stop") {
        return ended_at(s, at, Command::OfAxes(AxisCommand::Stop));
    }
    if same_bytes(w, b"estop") {
        return ended_at(s, at, Command::OfAxes(AxisCommand::Estop));
    }
    if same_bytes(w, b"move") {
        return crate::verbs::read_move(s, at);
    }
    if same_bytes(w, b"get") {
        return crate::verbs::read_get(s, at);
    }
    if same_bytes(w, b"set") {
        return crate::verbs::read_set(s, at);
    }
    if same_bytes(w, b"tools") {
        return crate::toolwords::read_tools(s, at);
    }
    if same_bytes(w, b"warnings") {
        return read_warnings(s, at);
    }
    if same_bytes(w, b"help") {
        return read_help(s, at);
    }
    Err(UNKNOWN)
}

// The words of a command, from a place on; an echo's words stand behind the first two.
pub fn read_command(s: &[u8], at: usize) -> Result<Worded, RefusedAt>
    ensures read { result ≡ read_command (words_at s.now at) }
    ensures number { words_number result ≡ words_refusal (bytes_of (words_at s.now at)) }
    ensures place { place_told result ≡ words_place (words_at s.now at) }
{
    let Word { start, end } = words::word_at(s, at);
    if start == end {
        return Ok(Worded {
            command: Command::OfAxes(AxisCommand::Nothing),
            from: 0,
        });
    }
    first_of(s, end, &s[start..end])
}
