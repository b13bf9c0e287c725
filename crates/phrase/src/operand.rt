// Reads what stands behind a command's word: no word more, one number, or the name of a setting.
// The rules are in specs/Reading.antt.
ghost use Rattle.std.specs.Prelude.{◌≡◌};
ghost use Rattle.words.specs.Cutting.{words_at};
ghost use Rattle.words.specs.Find.{meaning_of};
ghost use Rattle.phrase.specs.Reading.{ended, one_number, device_names, read_setting};

use crate::{MISSPELT, Numbered, Worded};
use command::{AxisSetting, Command, DeviceSetting, Setting};
use laws::RefusedAt;
use words::{Word, same_bytes};

// The command c, where no word is left.
#[tactic(auto, using(crate::proofs::Steps::ended_yes, crate::proofs::Steps::ended_not))]
pub(crate) fn ended_at(s: &[u8], at: usize, c: Command) -> Result<Worded, RefusedAt>
    ensures { result ≡ ended c (words_at s.now at) }
{
    if words::start_of(s, at) < s.len() {
        Err(MISSPELT)
    } else {
        Ok(Worded {
            command: c,
            from: 0,
        })
    }
}

// The row k, where one word is left and is its number.
#[tactic(auto, using(crate::proofs::Steps::number_none, crate::proofs::Steps::number_alone_lem, crate::proofs::Steps::number_more, crate::proofs::Steps::number_places))]
pub(crate) fn one_number(s: &[u8], at: usize, k: Numbered) -> Result<Worded, RefusedAt>
    ensures { result ≡ one_number k (words_at s.now at) }
{
    let Word { start, end } = words::word_at(s, at);
    if start == end {
        return Err(MISSPELT);
    }
    if words::start_of(s, end) < s.len() {
        return Err(MISSPELT);
    }
    k.made(start, numbers::reading::read_number(&s[start..end]))
}

// The setting of the device that a word names.
#[tactic(auto, unfolding(words::specs::Find::meaning_of, laws::specs::Text::text, command::specs::Settings::device_settings, command::specs::Settings::name_of))]
fn read_device_setting(w: &[u8]) -> Option<Setting>
    ensures { result ≡ meaning_of None w.now device_names }
{
    if same_bytes(w, b"comm.address") {
        return Some(Setting::OfDevice(DeviceSetting::CommAddress));
    }
    if same_bytes(w, b"comm.alert") {
        return Some(Setting::OfDevice(DeviceSetting::CommAlert));
    }
    if same_bytes(w, b"comm.checksum") {
        return Some(Setting::OfDevice(DeviceSetting::CommChecksum));
    }
    if same_bytes(w, b"system.access") {
        return Some(Setting::OfDevice(DeviceSetting::SystemAccess));
    }
    if same_bytes(w, b"deviceid") {
        return Some(Setting::OfDevice(DeviceSetting::DeviceId));
    }
    if same_bytes(w, b"system.axiscount") {
        return Some(Setting::OfDevice(DeviceSetting::SystemAxisCount));
    }
    None
}

// The setting that a word names.
#[tactic(auto, unfolding(crate::specs::Reading::read_setting, words::specs::Find::meaning_of, laws::specs::Text::text, command::specs::Settings::axis_settings, command::specs::Settings::device_settings, command::specs::Settings::name_of))]
pub(crate) fn read_setting(w: &[u8]) -> Option<Setting>
    ensures { result ≡ read_setting w.now }
{
    if same_bytes(w, b"pos") {
        return Some(Setting::OfAxis(AxisSetting::Pos));
    }
    if same_bytes(w, b"limit.min") {
        return Some(Setting::OfAxis(AxisSetting::LimitMin));
    }
    if same_bytes(w, b"limit.max") {
        return Some(Setting::OfAxis(AxisSetting::LimitMax));
    }
    if same_bytes(w, b"maxspeed") {
        return Some(Setting::OfAxis(AxisSetting::MaxSpeed));
    }
    if same_bytes(w, b"accel") {
        return Some(Setting::OfAxis(AxisSetting::Accel));
    }
    if same_bytes(w, b"driver.current.max") {
        return Some(Setting::OfAxis(AxisSetting::DriverCurrentMax));
    }
    if same_bytes(w, b"driver.current.run") {
        return Some(Setting::OfAxis(AxisSetting::DriverCurrentRun));
    }
    if same_bytes(w, b"driver.current.hold") {
        return Some(Setting::OfAxis(AxisSetting::DriverCurrentHold));
    }
    if same_bytes(w, b"driver.dir") {
        return Some(Setting::OfAxis(AxisSetting::DriverDir));
    }
    if same_bytes(w, b"encoder.index.count") {
        return Some(Setting::OfAxis(AxisSetting::EncoderIndexCount));
    }
    read_device_setting(w)
}
