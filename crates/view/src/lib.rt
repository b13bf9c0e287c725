// What a reply shows of a record: its head, and the values of the axes that a number means; in data.rt what is told of each kind.
// specs/View.antt and specs/Data.antt say it in document 01's words.
#![tactic(auto)]

ghost use Rattle.std.specs.Prelude.{◌≡◌};
ghost use Rattle.view.specs.View.{shown_axis, head_of, value_in, listed_for};

use axis::Axis;
use command::AxisSetting;
use device::Device;
use reply::Head;
use reply::told::Listed;
use units::Number;

// What is listed of an axis.
#[derive(Clone, Copy)]
pub enum Value {
    Of(AxisSetting),
    Stored(Number),
    Pos,
}

#[tactic(auto, unfolding(crate::specs::View::shown_axis))]
fn shown_axis(d: Device, k: u64) -> u64
    ensures { result ≡ shown_axis d k }
{
    if k <= d.count as u64 { k } else { 0 }
}

// What stands before the data.
#[tactic(auto, unfolding(crate::specs::View::head_of, crate::specs::View::busy, crate::specs::View::warnings_of))]
pub fn head(d: Device, k: u64, ok: bool) -> Head
    ensures { result ≡ head_of d k ok }
{
    let axis = shown_axis(d, k);
    Head {
        address: d.comm.address.place() as u64,
        axis,
        ok,
        busy: d.moving(axis),
        warnings: d.active(axis),
    }
}

fn value_of(a: Axis, v: Value) -> Number
    ensures { result ≡ value_in v a }
{
    let s = a.settings;
    match v {
        Value::Of(x) => s.value(x),
        Value::Stored(n) => Number::from(a.stored_at(n)),
        Value::Pos => Number::from(s.pos),
    }
}

// The values of the axes that k means.
pub(crate) fn listed(d: Device, k: u64, v: Value) -> Listed
    ensures { result ≡ listed_for v d k }
{
    let p = d.stretch(k);
    Listed {
        from: p.from,
        many: p.many,
        values: [
            value_of(d.axes[0], v),
            value_of(d.axes[1], v),
            value_of(d.axes[2], v),
            value_of(d.axes[3], v),
        ],
    }
}

pub mod data;
