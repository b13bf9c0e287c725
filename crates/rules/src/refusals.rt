// The table of refusals from 10 on: one function a row, and the first that applies.
// Each row asks every axis that the command concerns before the next row is looked at.
ghost use Rattle.std.specs.Prelude.{◌≡◌};
ghost use Rattle.laws.specs.Refusals.{first_of};
ghost use Rattle.command.specs.Commands.{demands};
ghost use Rattle.rules.specs.Refusals.{bad_axis, device_only, no_access, parked as parked_for, status_busy, device_takes, bad_data};
ghost use Rattle.rules.specs.Refusals.{standing_rows, rows, ruled};

use command::kinds::Demands;
use command::{Command, DeviceCommand};
use device::Device;
use laws::Refusal;
use settings::device_allows;

// The refusal that a command meets first, if any, and what the command demands.
#[derive(Clone, Copy)]
pub struct Ruled {
    pub verdict: Result<(), Refusal>,
    pub demands: Demands,
}

// 12 BADAXIS: axis above the count.
#[tactic(auto, unfolding(crate::specs::Refusals::bad_axis))]
fn bad_axis(d: Device, k: u64) -> bool
    ensures { result ≡ bad_axis d k }
{
    k > d.count as u64
}

// 13 DEVICEONLY: axis not 0, device scope.
#[tactic(auto, unfolding(crate::specs::Refusals::device_only))]
fn device_only(k: u64, c: Command) -> bool
    ensures { result ≡ device_only k c }
{
    matches!(c, Command::OfDevice(_)) && k != 0
}

// 14 NOACCESS: access too low.
#[tactic(auto, unfolding(crate::specs::Refusals::no_access))]
fn no_access(d: Device, x: Demands) -> bool
    ensures { result ≡ no_access d x }
{
    d.access.place() < x.access as usize
}

// 15 PARKED: move, stop and estop on a parked device.
#[tactic(auto, unfolding(crate::specs::Refusals::parked))]
fn parked_for(d: Device, x: Demands) -> bool
    ensures { result ≡ parked_for d x }
{
    d.parked && x.unparked
}

// 16 STATUSBUSY: some axis moves, and the command takes its axes at rest.
#[tactic(auto, unfolding(crate::specs::Refusals::status_busy))]
fn status_busy(d: Device, k: u64, x: Demands) -> bool
    ensures { result ≡ status_busy d k x }
{
    x.rest && d.moving(k)
}

fn device_takes(c: DeviceCommand) -> bool
    ensures { result ≡ device_takes c }
{
    match c {
        DeviceCommand::Set(s, n) => device_allows(s, n),
        _ => true,
    }
}

// 11 BADDATA: value, target, reference or range, on some axis or on the device.
#[tactic(auto, unfolding(crate::specs::Refusals::bad_data))]
fn bad_data(d: Device, k: u64, c: Command) -> bool
    ensures { result ≡ bad_data d k c }
{
    match c {
        Command::OfAxes(a) => !d.permits(k, a),
        Command::OfDevice(a) => !device_takes(a),
    }
}

// The first row that applies of those above 11 BADDATA; 10 BADCOMMAND is a set of a read-only setting.
#[tactic(auto, unfolding(laws::specs::Refusals::first_of))]
fn standing(d: Device, k: u64, c: Command, x: Demands) -> Result<(), Refusal>
    ensures { result ≡ first_of (standing_rows d k c x) }
{
    if x.barred {
        return Err(Refusal::BadCommand);
    }
    if bad_axis(d, k) {
        return Err(Refusal::BadAxis);
    }
    if device_only(k, c) {
        return Err(Refusal::DeviceOnly);
    }
    if no_access(d, x) {
        return Err(Refusal::NoAccess);
    }
    if parked_for(d, x) {
        return Err(Refusal::Parked);
    }
    if status_busy(d, k, x) {
        return Err(Refusal::StatusBusy);
    }
    Ok(())
}

// The first row that applies. `standing` is apart because the compiler holds a call behind so many returns for cold, and would
// not inline the walk of `bad_data` there.
fn refusal(d: Device, k: u64, c: Command, x: Demands) -> Result<(), Refusal>
    requires { x ≡ demands c }
    ensures { result ≡ first_of (rows d k c x) }
{
    standing(d, k, c, x)?;
    // what only shows has no value, target, reference or range
    if x.shows {
        return Ok(());
    }
    if bad_data(d, k, c) {
        return Err(Refusal::BadData);
    }
    Ok(())
}

// The ruling on a command for axis k, 0 for all axes.
pub fn rule(d: Device, k: u64, c: Command) -> Ruled
    ensures { result ≡ ruled d k c }
{
    let x = c.form().demands();
    Ruled {
        verdict: refusal(d, k, c, x),
        demands: x,
    }
}
