// Reads the words behind `move`, `get` and `set`.
// The rules are in specs/Reading.antt.
ghost use Rattle.std.specs.Prelude.{◌≡◌};
ghost use Rattle.words.specs.Cutting.{words_at};
ghost use Rattle.words.specs.Find.{meaning_of};
ghost use Rattle.command.specs.Commands.{get_command};
ghost use Rattle.phrase.specs.Reading.{unknown, moves, read_move, get_of, read_get, set_of, read_set};

use crate::operand::{ended_at, one_number, read_setting};
use crate::{Numbered, UNKNOWN, Worded};
use command::{AxisCommand, Command, DeviceCommand, Setting, Target};
use laws::RefusedAt;
use words::{Word, same_bytes};

// Behind `move` and the word w.
#[tactic(auto, unfolding(words::specs::Find::meaning_of, laws::specs::Text::text))]
fn move_of(s: &[u8], at: usize, w: &[u8]) -> Result<Worded, RefusedAt>
    ensures { result ≡ meaning_of unknown w.now (moves (words_at s.now at)) }
{
    if same_bytes(w, b"abs") {
        return one_number(s, at, Numbered::MoveAbs);
    }
    if same_bytes(w, b"rel") {
        return one_number(s, at, Numbered::MoveRel);
    }
    if same_bytes(w, b"vel") {
        return one_number(s, at, Numbered::MoveVel);
    }
    if same_bytes(w, b"min") {
        return ended_at(s, at, Command::OfAxes(AxisCommand::MoveTo(Target::Min)));
    }
    if same_bytes(w, b"max") {
        return ended_at(s, at, Command::OfAxes(AxisCommand::MoveTo(Target::Max)));
    }
    if same_bytes(w, b"stored") {
        return one_number(s, at, Numbered::MoveStored);
    }
    Err(UNKNOWN)
}

// The words behind `move`.
#[tactic(auto, using(crate::proofs::Steps::move_word))]
pub(crate) fn read_move(s: &[u8], at: usize) -> Result<Worded, RefusedAt>
    ensures { result ≡ read_move (words_at s.now at) }
{
    let Word { start, end } = words::word_at(s, at);
    move_of(s, end, &s[start..end])
}

// `get` of a setting, of the setting's scope.
fn get_command(s: Setting) -> Command
    ensures { result ≡ get_command s }
{
    match s {
        Setting::OfAxis(t) => Command::OfAxes(AxisCommand::Get(t)),
        Setting::OfDevice(t) => Command::OfDevice(DeviceCommand::Get(t)),
    }
}

// Behind `get` and the name of x.
fn get_of(s: &[u8], at: usize, x: Option<Setting>) -> Result<Worded, RefusedAt>
    ensures { result ≡ get_of x (words_at s.now at) }
{
    let Some(t) = x else {
        return Err(UNKNOWN);
    };
    ended_at(s, at, get_command(t))
}

// The words behind `get`.
#[tactic(auto, using(crate::proofs::Steps::get_word))]
pub(crate) fn read_get(s: &[u8], at: usize) -> Result<Worded, RefusedAt>
    ensures { result ≡ read_get (words_at s.now at) }
{
    let Word { start, end } = words::word_at(s, at);
    get_of(s, end, read_setting(&s[start..end]))
}

// Behind `set` and the name of x.
fn set_of(s: &[u8], at: usize, x: Option<Setting>) -> Result<Worded, RefusedAt>
    ensures { result ≡ set_of x (words_at s.now at) }
{
    let Some(t) = x else {
        return Err(UNKNOWN);
    };
    if t.read_only() {
        return Err(UNKNOWN);
    }
    one_number(s, at, Numbered::SetTo(t))
}

// The words behind `set`.
#[tactic(auto, using(crate::proofs::Steps::set_word))]
pub(crate) fn read_set(s: &[u8], at: usize) -> Result<Worded, RefusedAt>
    ensures { result ≡ read_set (words_at s.now at) }
{
    let Word { start, end } = words::word_at(s, at);
    set_of(s, end, read_setting(&s[start..end]))
}
