// Motor reports to the device: 21, then 22, or the next record.
// A refused report changes nothing.
ghost use Rattle.std.specs.Prelude.{◌≡◌, ◌-◌, ◌≤◌, take, drop};
ghost use Rattle.laws.specs.Lists.{all, change_from};
ghost use Rattle.axis.specs.Reports.{takes, reported};
ghost use Rattle.rules.specs.Reports.{is_axis, bad_report, report_refusal, report};

use axis::Axis;
use axis::reports::Report;
use device::{Device, Outcome};
use laws::Refusal;
use units::Number;

// Is k an axis from 1 up to the count?
#[tactic(auto, unfolding(crate::specs::Reports::is_axis))]
fn is_axis(d: Device, k: u64) -> bool
    ensures { result ≡ is_axis d k }
{
    (1..=d.count as u64).contains(&k)
}

fn takes_at(axes: [Axis; 4], k: u64, r: Report) -> bool
    requires { (1 ≤ k) × (k ≤ 4) }
    ensures { result ≡ all (takes r) (take 1 (drop (k - 1) axes)) }
{
    axis::reports::takes(axes[k as usize - 1], r)
}

fn bad_report(d: Device, k: u64, r: Report) -> bool
    requires { d.count ≤ 4 }
    ensures { result ≡ bad_report d k r }
{
    !(is_axis(d, k) && takes_at(d.axes, k, r))
}

#[tactic(auto, unfolding(crate::specs::Reports::report_refusal, laws::specs::Refusals::first_of))]
fn report_refusal(d: Device, k: u64, r: Report) -> Result<(), Refusal>
    ensures { result ≡ report_refusal d k r }
{
    if !d.good() {
        return Err(Refusal::BadState);
    }
    if bad_report(d, k, r) {
        return Err(Refusal::BadReport);
    }
    Ok(())
}

// The axes with what the report makes of the one at k.
fn reported_at(mut axes: [Axis; 4], k: u64, r: Report) -> [Axis; 4]
    requires { (1 ≤ k) × (k ≤ 4) }
    ensures { result ≡ change_from (reported r) (k - 1) 1 axes }
{
    let i = k as usize - 1;
    axes[i] = axis::reports::reported(axes[i], r);
    axes
}

// The refusal and the record as it was, or the next record.
pub fn report(mut d: Device, axis: Number, r: Report) -> Outcome
    ensures { result ≡ report d axis r }
{
    let k = axis.place() as u64;
    let verdict = report_refusal(d, k, r);
    if verdict.is_ok() {
        d.axes = reported_at(d.axes, k, r);
    }
    Outcome { verdict, next: d }
}
