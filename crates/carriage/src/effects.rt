// What each command does to the record, where it is accepted. No other crate can call these: a command is obeyed by `step` and `respond`,
// which ask first whether the record is good and whether the command is refused.
ghost use Rattle.std.specs.Prelude.{◌≡◌};
ghost use Rattle.axis.specs.Commands.{axis_after};
ghost use Rattle.device.specs.Record.{put, with_parked, on_axes};
ghost use Rattle.rules.specs.Effects.{device_after, next};

use axis::commands::unparks;
use command::{AxisCommand, Command, DeviceCommand, DeviceSetting};
use device::Device;
use device::walks::change_each;
use units::Number;

// The device with one of its settings set to n; what is read only stays.
fn put(mut d: Device, s: DeviceSetting, n: Number) -> Device
    ensures { result ≡ put s n d }
{
    match s {
        DeviceSetting::CommAddress => d.comm.address = n,
        DeviceSetting::CommAlert => d.comm.alert = n,
        DeviceSetting::CommChecksum => d.comm.checksum = n,
        DeviceSetting::SystemAccess => d.access = n,
        DeviceSetting::DeviceId | DeviceSetting::SystemAxisCount => {}
    }
    d
}

fn with_parked(d: Device, parked: bool) -> Device
    ensures { result ≡ with_parked parked d }
{
    Device { parked, ..d }
}

fn after(d: Device, c: DeviceCommand) -> Device
    ensures { result ≡ device_after c d }
{
    match c {
        DeviceCommand::Set(s, n) => put(d, s, n),
        DeviceCommand::Park => with_parked(d, true),
        DeviceCommand::Unpark => with_parked(d, false),
        _ => d,
    }
}

// Every axis that k means after the command, and all other places as they are.
#[tactic(auto, unfolding(device::specs::Record::on_axes))]
fn obeyed(mut d: Device, k: u64, c: AxisCommand) -> Device
    ensures { result ≡ on_axes (axis_after c) k d }
{
    d.axes = change_each(d.axes, k, d.many(k), c);
    d
}

// The record after a command for axis k, 0 for all axes, that meets no refusal. Parked is set here: in `obeyed`
// it would take 170 instructions more.
#[tactic(auto, unfolding(rules::specs::Effects::next))]
pub fn next(d: Device, k: u64, c: Command) -> Device
    ensures { result ≡ next d k c }
{
    match c {
        Command::OfAxes(a) => obeyed(with_parked(d, !unparks(a) & d.parked), k, a),
        Command::OfDevice(a) => after(d, a),
    }
}
