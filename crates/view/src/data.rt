// What the reply to an accepted command tells, by the kind of data that its row of the table has.
// specs/Data.antt says it; reply::told writes it.
ghost use Rattle.std.specs.Prelude.{◌≡◌, length};
ghost use Rattle.view.specs.Data.{setting_told, told_of};

use crate::{Value, listed};
use command::Setting;
use command::forms::Form;
use command::kinds::Data;
use device::Device;
use reply::told::Told;

fn setting_told(d: Device, k: u64, s: Setting) -> Told
    ensures { result ≡ setting_told d k s }
{
    match s {
        Setting::OfAxis(x) => Told::Values(listed(d, k, Value::Of(x))),
        Setting::OfDevice(x) => Told::One(d.value(x)),
    }
}

// What is told of a command of this form for axis k. The record is the one before the command; the words of an echo stand in
// the line from a place to another.
#[tactic(auto, unfolding(crate::specs::View::warnings_of))]
pub fn told(d: Device, k: u64, f: Form, x: Data, from: usize, end: usize) -> Told
    ensures told { result ≡ told_of d k f x from end }
    ensures places { length d.axes ≡ 4 }
{
    match x {
        Data::Nought => Told::Nought,
        Data::Values => {
            let y = f.setting;
            setting_told(d, k, y)
        }
        Data::Stored => {
            let n = f.first;
            Told::Values(listed(d, k, Value::Stored(n)))
        }
        Data::Position => Told::Values(listed(d, k, Value::Pos)),
        Data::Active => Told::Active(d.active(k)),
        Data::Parked => Told::Parked(d.parked),
        Data::Words => Told::Words(from, end),
        Data::Info => Told::Info,
    }
}
