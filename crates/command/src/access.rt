// The table of settings: who may read and write each, and when it may be written.
// The rules are in specs/Settings.antt.
ghost use Rattle.std.specs.Prelude.{◌≡◌};
ghost use Rattle.command.specs.Settings.{about_axis, about_device, about, access_of, read_only, only_at_rest};

use crate::{AxisSetting, DeviceSetting, Setting};

// When a setting may be written: always, with its axis at rest, or never ("read only").
#[derive(Clone, Copy)]
pub enum Writing {
    Always,
    AtRest,
    Never,
}

// What the table says of a setting: the access that it takes to read it and to write it, and when it may be written.
#[derive(Clone, Copy)]
struct Access {
    get: u8,
    set: u8,
    writing: Writing,
}

// Read and written with access 1: at any time, with its axis at rest, or only read.
const ALWAYS: Access = Access {
    get: 1,
    set: 1,
    writing: Writing::Always,
};

const AT_REST: Access = Access {
    writing: Writing::AtRest,
    ..ALWAYS
};

const NEVER: Access = Access {
    writing: Writing::Never,
    ..ALWAYS
};

impl AxisSetting {
    fn access(self) -> Access
        ensures { result ≡ access_of (about_axis self) }
    {
        match self {
            AxisSetting::Pos | AxisSetting::LimitMin | AxisSetting::LimitMax => AT_REST,
            AxisSetting::MaxSpeed | AxisSetting::Accel => ALWAYS,
            AxisSetting::DriverCurrentMax => NEVER,
            AxisSetting::DriverCurrentRun | AxisSetting::DriverCurrentHold => ALWAYS,
            AxisSetting::DriverDir => Access {
                get: 2,
                set: 2,
                ..AT_REST
            },
            AxisSetting::EncoderIndexCount => Access { set: 2, ..ALWAYS },
        }
    }
}

impl DeviceSetting {
    fn access(self) -> Access
        ensures { result ≡ access_of (about_device self) }
    {
        match self {
            DeviceSetting::CommAddress
            | DeviceSetting::CommAlert
            | DeviceSetting::CommChecksum
            | DeviceSetting::SystemAccess => ALWAYS,
            DeviceSetting::DeviceId | DeviceSetting::SystemAxisCount => NEVER,
        }
    }
}

impl Setting {
    fn access(self) -> Access
        ensures { result ≡ access_of (about self) }
    {
        match self {
            Setting::OfAxis(s) => s.access(),
            Setting::OfDevice(s) => s.access(),
        }
    }

    // The access that it takes to read it.
    pub(crate) fn get_access(self) -> u8
        ensures { result ≡ (about self).get }
    {
        self.access().get
    }

    // The access that it takes to write it.
    pub(crate) fn set_access(self) -> u8
        ensures { result ≡ (about self).set }
    {
        self.access().set
    }

    // May it never be written?
    pub fn read_only(self) -> bool
        ensures { result ≡ read_only self }
    {
        matches!(self.access().writing, Writing::Never)
    }

    // May it be written only while its axis is at rest?
    pub(crate) fn only_at_rest(self) -> bool
        ensures { result ≡ only_at_rest self }
    {
        matches!(self.access().writing, Writing::AtRest)
    }
}
