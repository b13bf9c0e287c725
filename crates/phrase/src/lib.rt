// What a command's words come to, and the row that waits for its number. The code that reads the words stands in
// operand.rt, verbs.rt, toolwords.rt and reading.rt.
// The spelling is in specs/Spelling.antt, and proofs/Rows.antt shows that just that is read.
#![tactic(auto)]

ghost use Rattle.std.specs.Prelude.{◌≡◌};
ghost use Rattle.command.specs.Commands.{set_command};
ghost use Rattle.phrase.specs.Reading.{numbered as numberedBy, made};
ghost use Rattle.phrase.specs.Place.{Places, place_told};

use command::{AxisCommand, Command, DeviceCommand, Setting, Target};
use laws::{NOWHERE, Refusal, RefusedAt};
use units::{Number, Position, Speed};

// What a command's words come to: the command, and the place where the words that it carries begin, 0 where it carries none.
#[derive(Clone, Copy)]
pub struct Worded {
    pub command: Command,
    pub from: usize,
}

// The refusals of a command's words that have no place in the line.
pub(crate) const UNKNOWN: RefusedAt = RefusedAt {
    refusal: Refusal::BadCommand,
    place: NOWHERE,
};

pub(crate) const MISSPELT: RefusedAt = RefusedAt {
    refusal: Refusal::BadData,
    place: NOWHERE,
};

// The place that is told with a refusal of words; 255 where there is none.
pub fn place_told(read: Result<Worded, RefusedAt>) -> u8
    ensures { result ≡ place_told read }
{
    match read {
        Ok(_) => NOWHERE,
        Err(e) => e.place,
    }
}

// A row of the table that waits for its last number.
#[derive(Clone, Copy)]
pub enum Numbered {
    MoveAbs,
    MoveRel,
    MoveVel,
    MoveStored,
    SetTo(Setting),
    Store,
    StoreAt(Number),
    StoreCurrent,
}

// `set` of a setting, of the setting's scope.
fn set_command(s: Setting, n: Number) -> Command
    ensures { result ≡ set_command s n }
{
    match s {
        Setting::OfAxis(t) => Command::OfAxes(AxisCommand::Set(t, n)),
        Setting::OfDevice(t) => Command::OfDevice(DeviceCommand::Set(t, n)),
    }
}

impl Numbered {
    // The row with its number.
    fn with(self, n: Number) -> Command
        ensures { result ≡ numberedBy self n }
    {
        let position = Position::from(n);
        match self {
            Numbered::MoveAbs => Command::OfAxes(AxisCommand::MoveTo(Target::Abs(position))),
            Numbered::MoveRel => Command::OfAxes(AxisCommand::MoveTo(Target::Rel(position))),
            Numbered::MoveVel => Command::OfAxes(AxisCommand::MoveVel(Speed::from(n))),
            Numbered::MoveStored => Command::OfAxes(AxisCommand::MoveTo(Target::Stored(n))),
            Numbered::SetTo(s) => set_command(s, n),
            Numbered::Store => Command::OfAxes(AxisCommand::Storepos(n)),
            Numbered::StoreAt(m) => Command::OfAxes(AxisCommand::StoreposAt(m, position)),
            Numbered::StoreCurrent => Command::OfAxes(AxisCommand::StoreposCurrent(n)),
        }
    }

    // The row with its number, whose word starts at a place; or 11 where it is none, and where it refuses.
    pub(crate) fn made(self, start: usize, n: Result<Number, usize>) -> Result<Worded, RefusedAt>
        requires { Places start n }
        ensures { result ≡ made self start n }
    {
        let v = n.map_err(|p| Refusal::BadData.at(start + p))?;
        Ok(Worded {
            command: self.with(v),
            from: 0,
        })
    }
}

pub mod operand;
pub mod reading;
pub mod toolwords;
pub mod verbs;
