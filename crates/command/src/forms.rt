// A command as its row of the table and what it carries: the only full match over commands.
// specs/Forms.antt says the same, one line a command.
ghost use Rattle.std.specs.Prelude.{◌≡◌};
ghost use Rattle.command.specs.Forms.{form, target_form, axis_form, device_form, form_of};

use crate::{AxisCommand, AxisSetting, Command, DeviceCommand, Setting, Target};
use units::Number;

// A row of the table of commands, and what a command of that row carries: a setting, and its numbers N and P. Where the row
// has no such place there is pos, or 0.
#[derive(Clone, Copy)]
pub struct Form {
    pub row: usize,
    pub setting: Setting,
    pub first: Number,
    pub second: Number,
}

impl Form {
    fn of(row: usize, setting: Setting, first: Number, second: Number) -> Form
        ensures { result ≡ form row setting first second }
    {
        Form {
            row,
            setting,
            first,
            second,
        }
    }
}

impl Target {
    fn form(self) -> Form
        ensures { result ≡ target_form self }
    {
        let none = Setting::OfAxis(AxisSetting::Pos);
        let zero = Number(0);
        match self {
            Target::Abs(p) => Form::of(4, none, Number::from(p), zero),
            Target::Rel(p) => Form::of(5, none, Number::from(p), zero),
            Target::Min => Form::of(7, none, zero, zero),
            Target::Max => Form::of(8, none, zero, zero),
            Target::Stored(n) => Form::of(9, none, n, zero),
        }
    }
}

impl AxisCommand {
    fn form(self) -> Form
        ensures { result ≡ axis_form self }
    {
        let none = Setting::OfAxis(AxisSetting::Pos);
        let zero = Number(0);
        match self {
            AxisCommand::Nothing => Form::of(0, none, zero, zero),
            AxisCommand::Home => Form::of(1, none, zero, zero),
            AxisCommand::Stop => Form::of(2, none, zero, zero),
            AxisCommand::Estop => Form::of(3, none, zero, zero),
            AxisCommand::MoveTo(t) => t.form(),
            AxisCommand::MoveVel(v) => Form::of(6, none, Number::from(v), zero),
            AxisCommand::Get(s) => Form::of(10, Setting::OfAxis(s), zero, zero),
            AxisCommand::Set(s, n) => Form::of(11, Setting::OfAxis(s), n, zero),
            AxisCommand::Storepos(n) => Form::of(12, none, n, zero),
            AxisCommand::StoreposAt(n, p) => Form::of(13, none, n, Number::from(p)),
            AxisCommand::StoreposCurrent(n) => Form::of(14, none, n, zero),
            AxisCommand::Warnings => Form::of(15, none, zero, zero),
            AxisCommand::WarningsClear => Form::of(16, none, zero, zero),
        }
    }
}

impl DeviceCommand {
    fn form(self) -> Form
        ensures { result ≡ device_form self }
    {
        let none = Setting::OfAxis(AxisSetting::Pos);
        let zero = Number(0);
        match self {
            DeviceCommand::Get(s) => Form::of(10, Setting::OfDevice(s), zero, zero),
            DeviceCommand::Set(s, n) => Form::of(11, Setting::OfDevice(s), n, zero),
            DeviceCommand::ParkingState => Form::of(17, none, zero, zero),
            DeviceCommand::Park => Form::of(18, none, zero, zero),
            DeviceCommand::Unpark => Form::of(19, none, zero, zero),
            DeviceCommand::Echo => Form::of(20, none, zero, zero),
            DeviceCommand::Help => Form::of(21, none, zero, zero),
        }
    }
}

impl Command {
    pub fn form(self) -> Form
        ensures { result ≡ form_of self }
    {
        match self {
            Command::OfAxes(c) => c.form(),
            Command::OfDevice(c) => c.form(),
        }
    }
}
