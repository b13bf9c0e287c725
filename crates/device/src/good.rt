// When a device record is good, and the fresh record where it may be asked for.
// Every setting is asked for by its name, as in document 01's table.
ghost use Rattle.std.specs.Prelude.{◌≡◌, ◌&&◌};
ghost use Rattle.laws.specs.Lists.{all, any};
ghost use Rattle.command.specs.Settings.{device_settings};
ghost use Rattle.axis.specs.Record.{moving as movingOf};
ghost use Rattle.device.specs.Record.{axes_of};
ghost use Rattle.device.specs.Good.{in_range, good as goodOf, may_be_fresh, ask_fresh};

use crate::{Device, Outcome};
use command::DeviceSetting;
use laws::Refusal;
use settings::device_allows;
use units::Number;

impl Device {
    fn in_range(self, s: DeviceSetting) -> bool
        ensures { result ≡ in_range self s }
    {
        device_allows(s, self.value(s))
    }

    fn all_in_range(self) -> bool
        ensures { result ≡ all (in_range self) device_settings }
    {
        let a = self.in_range(DeviceSetting::CommAddress);
        let b = self.in_range(DeviceSetting::CommAlert);
        let c = self.in_range(DeviceSetting::CommChecksum);
        let d = self.in_range(DeviceSetting::SystemAccess);
        let e = self.in_range(DeviceSetting::DeviceId);
        let f = self.in_range(DeviceSetting::SystemAxisCount);
        a & (b & (c & (d & (e & f))))
    }

    // An axis in motion on a parked device is looked for on a parked device only.
    #[tactic(auto, unfolding(crate::specs::Record::axes_of, crate::specs::Record::many))]
    fn moves_while_parked(self) -> bool
        ensures { result ≡ (self.parked && any movingOf (axes_of self 0)) }
    {
        self.parked && self.moving(0)
    }

    #[tactic(auto, unfolding(crate::specs::Good::good, crate::specs::Record::axes_of, crate::specs::Record::many))]
    pub fn good(self) -> bool
        ensures { result ≡ goodOf self }
    {
        self.all_in_range()
            && crate::walks::all_good(self.axes, u64::from(self.count))
            && !self.moves_while_parked()
    }

    // A fresh record, or 21 BADSTATE where it is asked out of range.
    #[tactic(auto, unfolding(crate::specs::Good::ask_fresh))]
    pub fn fresh(address: Number, count: u8, id: Number) -> Outcome
        ensures { result ≡ ask_fresh address count id }
    {
        if may_be_fresh(address, count, id) {
            Outcome {
                verdict: Ok(()),
                next: Device::new(address, count, id),
            }
        } else {
            Outcome {
                verdict: Err(Refusal::BadState),
                next: Device::new(Number(1), 1, Number(0)),
            }
        }
    }
}

#[tactic(auto, unfolding(crate::specs::Good::may_be_fresh))]
fn may_be_fresh(address: Number, count: u8, id: Number) -> bool
    ensures { result ≡ may_be_fresh address count id }
{
    device_allows(DeviceSetting::CommAddress, address)
        && device_allows(DeviceSetting::SystemAxisCount, Number::from(count))
        && device_allows(DeviceSetting::DeviceId, id)
}
