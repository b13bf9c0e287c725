// What a command of the scope "axis" asks of one axis, what it makes of that axis, and whether it unparks the device.
// The first two have one line a command, as in document 01's table of commands.
ghost use Rattle.std.specs.Prelude.{◌≡◌};
ghost use Rattle.axis.specs.Commands.{permits, axis_after, unparks as unparksBy};

use crate::travel::is_place;
use crate::{Axis, Motion};
use command::AxisCommand;

// Does the axis permit the command's values?
pub fn permits(a: Axis, c: AxisCommand) -> bool
    ensures { result ≡ permits c a }
{
    match c {
        AxisCommand::Nothing => true,
        AxisCommand::Home => true,
        AxisCommand::Stop => true,
        AxisCommand::Estop => true,
        AxisCommand::MoveTo(t) => a.may_move_to(t),
        AxisCommand::MoveVel(v) => a.may_run_at(v),
        AxisCommand::Get(_) => true,
        AxisCommand::Set(s, n) => a.settings.allows(s, n),
        AxisCommand::Storepos(n) => is_place(n),
        AxisCommand::StoreposAt(n, p) => a.may_store(n, p),
        AxisCommand::StoreposCurrent(n) => a.may_store(n, a.settings.pos),
        AxisCommand::Warnings => true,
        AxisCommand::WarningsClear => true,
    }
}

// The axis after a command that it permits.
pub fn after(a: Axis, c: AxisCommand) -> Axis
    ensures { result ≡ axis_after c a }
{
    match c {
        AxisCommand::Nothing => a,
        AxisCommand::Home => a.with_motion(Motion::Homing),
        AxisCommand::Stop => a.stopped(),
        AxisCommand::Estop => a.with_motion(Motion::Idle),
        AxisCommand::MoveTo(t) => a.moved(t),
        AxisCommand::MoveVel(v) => a.with_motion(Motion::At(v)),
        AxisCommand::Get(_) => a,
        AxisCommand::Set(s, n) => a.with_settings(a.settings.put(s, n)),
        AxisCommand::Storepos(_) => a,
        AxisCommand::StoreposAt(n, p) => a.store(n, p),
        AxisCommand::StoreposCurrent(n) => a.store(n, a.settings.pos),
        AxisCommand::Warnings => a,
        AxisCommand::WarningsClear => a.cleared(),
    }
}

// Does it unpark the device? Home alone does.
pub fn unparks(c: AxisCommand) -> bool
    ensures { result ≡ unparksBy c }
{
    matches!(c, AxisCommand::Home)
}
