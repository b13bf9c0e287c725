// Writes a setting's name and the words of a message into a lent buffer, each behind a space.
// The names are those of command/specs/Settings.
ghost use Rattle.std.specs.Prelude.{◌≡◌, ◌∷◌};
ghost use Rattle.laws.specs.Text.{space};
ghost use Rattle.laws.proofs.Spaced.{trail};
ghost use Rattle.words.specs.Cutting.{cut};
ghost use Rattle.command.specs.Settings.{name_of};
ghost use Rattle.buffer.specs.Wrote.{Wrote};

use buffer::put_word;
use command::{AxisSetting, DeviceSetting, Setting};

// A setting's name.
#[tactic(auto, unfolding(laws::specs::Text::text, command::specs::Settings::name_of))]
fn name(s: Setting) -> &'static [u8]
    ensures { result.now ≡ name_of s }
{
    match s {
        Setting::OfAxis(a) => match a {
            AxisSetting::Pos => b"pos",
            AxisSetting::LimitMin => b"limit.min",
            AxisSetting::LimitMax => b"limit.max",
            AxisSetting::MaxSpeed => b"maxspeed",
            AxisSetting::Accel => b"accel",
            AxisSetting::DriverCurrentMax => b"driver.current.max",
            AxisSetting::DriverCurrentRun => b"driver.current.run",
            AxisSetting::DriverCurrentHold => b"driver.current.hold",
            AxisSetting::DriverDir => b"driver.dir",
            AxisSetting::EncoderIndexCount => b"encoder.index.count",
        },
        Setting::OfDevice(d) => match d {
            DeviceSetting::CommAddress => b"comm.address",
            DeviceSetting::CommAlert => b"comm.alert",
            DeviceSetting::CommChecksum => b"comm.checksum",
            DeviceSetting::SystemAccess => b"system.access",
            DeviceSetting::DeviceId => b"deviceid",
            DeviceSetting::SystemAxisCount => b"system.axiscount",
        },
    }
}

pub fn put_setting(buf: &mut [u8], at: usize, s: Setting) -> usize
    ensures { Wrote buf.old at (space ∷ name_of s) buf.new result }
{
    put_word(buf, at, name(s))
}

pub fn put_message(buf: &mut [u8], at: usize, message: &[u8]) -> usize
    ensures { Wrote buf.old at (trail (cut message.now)) buf.new result }
{
    let mut next = at;
    let mut place: usize = 0;
    while place < message.len() {
        let w = words::first_word(message, place);
        if w.len() == 0 {
            return next;
        }
        next = put_word(buf, next, w);
        place = words::past_word(message, place);
    }
    next
}
