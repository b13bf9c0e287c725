// The device record, by value: its settings, four axis places, and the fresh record.
// What commands and reports do to it is in the crates `rules` and `carriage`.
#![tactic(auto)]

ghost use Rattle.std.specs.Prelude.{◌≡◌};
ghost use Rattle.device.specs.Record.{value as value_of, fresh_comm, fresh as fresh_of};

use axis::Axis;
use command::DeviceSetting;
use laws::Refusal;
use units::Number;

// comm.address, comm.alert and comm.checksum.
#[derive(Clone, Copy)]
pub struct Comm {
    pub address: Number,
    pub alert: Number,
    pub checksum: Number,
}

// The device record: `access` is system.access, `id` is deviceid, `count` is system.axiscount.
#[derive(Clone, Copy)]
pub struct Device {
    pub comm: Comm,
    pub access: Number,
    pub id: Number,
    pub count: u8,
    pub parked: bool,
    pub axes: [Axis; 4],
}

// Accepted or refused, and the next record.
#[derive(Clone, Copy)]
pub struct Outcome {
    pub verdict: Result<(), Refusal>,
    pub next: Device,
}

impl Comm {
    fn fresh(address: Number) -> Comm
        ensures { result ≡ fresh_comm address }
    {
        Comm {
            address,
            alert: Number(0),
            checksum: Number(1),
        }
    }
}

impl Device {
    pub fn value(self, s: DeviceSetting) -> Number
        ensures { result ≡ value_of s self }
    {
        match s {
            DeviceSetting::CommAddress => self.comm.address,
            DeviceSetting::CommAlert => self.comm.alert,
            DeviceSetting::CommChecksum => self.comm.checksum,
            DeviceSetting::SystemAccess => self.access,
            DeviceSetting::DeviceId => self.id,
            DeviceSetting::SystemAxisCount => Number::from(self.count),
        }
    }

    #[tactic(auto, unfolding(crate::specs::Record::fresh))]
    fn new(address: Number, count: u8, id: Number) -> Device
        ensures { result ≡ fresh_of address count id }
    {
        Device {
            comm: Comm::fresh(address),
            access: Number(1),
            id,
            count,
            parked: false,
            axes: [Axis::fresh(); 4],
        }
    }
}

pub mod axes;
pub mod good;
pub mod walks;
