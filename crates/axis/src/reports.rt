// Motor reports to one axis: which it takes, and what they make of it.
// A warning is raised in the mask by its place, 1 to 7.
ghost use Rattle.std.specs.Prelude.{◌≡◌, ◌≤◌};
ghost use Rattle.axis.specs.RaisedWarnings.{raise as raiseOf, raised as raisedOf, is_warning};
ghost use Rattle.axis.specs.Reports.{placed as placed_at, report_of, takes as takesOf, rests as restsOf, reported as reportedOf};

use crate::{Axis, Motion};
use settings::Settings;
use units::{Number, Position};

// A motor report, kinds 1 to 5 in this order; any other kind.
#[derive(Clone, Copy)]
pub enum Report {
    MovingAt(Position),
    StoppedAt(Position),
    HomeReached(Position),
    Raised(Number),
    DriverNormal,
    Unknown,
}

// The report of a kind from 1 to 5, with its last number.
#[tactic(auto, unfolding(crate::specs::Reports::report_of))]
pub fn report_of(kind: Number, n: Number) -> Report
    ensures { result ≡ report_of kind n }
{
    match kind.place() {
        1 => Report::MovingAt(Position::from(n)),
        2 => Report::StoppedAt(Position::from(n)),
        3 => Report::HomeReached(Position::from(n)),
        4 => Report::Raised(n),
        5 => Report::DriverNormal,
        _ => Report::Unknown,
    }
}

// Is it a number from 1 to 7?
fn is_warning(n: Number) -> bool
    ensures { result ≡ is_warning n }
{
    (1..=7).contains(&n.place())
}

// The mask with the warning of place k raised.
#[tactic(auto, using(crate::proofs::MotorReports::raise_is))]
fn raise(k: usize, m: u32) -> u32
    requires { (1 ≤ k) × (k ≤ 7) }
    ensures { result ≡ raiseOf k m }
{
    m | 1 << (k - 1)
}

// With the warning of place n raised, from 1 to 7.
#[tactic(auto, unfolding(crate::specs::RaisedWarnings::raised))]
fn raised(axis: Axis, n: Number) -> Axis
    ensures { result ≡ raisedOf n axis }
{
    if is_warning(n) {
        let warnings = raise(n.place(), axis.warnings);
        Axis { warnings, ..axis }
    } else {
        axis
    }
}

// At p, in the motion m, with a reference or none.
fn placed(axis: Axis, p: Position, motion: Motion, reference: bool) -> Axis
    ensures { result ≡ placed_at p motion reference axis }
{
    let settings = Settings {
        pos: p,
        ..axis.settings
    };
    Axis {
        settings,
        motion,
        reference,
        ..axis
    }
}

pub fn takes(axis: Axis, r: Report) -> bool
    ensures { result ≡ takesOf r axis }
{
    match r {
        Report::MovingAt(p) | Report::StoppedAt(p) => p.bounded() && axis.moving(),
        Report::HomeReached(p) => p.bounded() && axis.motion.homing(),
        Report::Raised(n) => is_warning(n),
        Report::DriverNormal => true,
        Report::Unknown => false,
    }
}

// Does it make the axis idle?
pub fn rests(r: Report) -> bool
    ensures { result ≡ restsOf r }
{
    matches!(r, Report::StoppedAt(_) | Report::HomeReached(_))
}

pub fn reported(axis: Axis, r: Report) -> Axis
    ensures { result ≡ reportedOf r axis }
{
    match r {
        Report::MovingAt(p) => placed(axis, p, axis.motion, axis.reference),
        Report::StoppedAt(p) => placed(axis, p, Motion::Idle, axis.reference),
        Report::HomeReached(p) => placed(axis, p, Motion::Idle, true),
        Report::Raised(n) => raised(axis, n),
        Report::DriverNormal => Axis {
            warnings: axis.warnings - axis.warnings % 2,
            ..axis
        },
        Report::Unknown => axis,
    }
}
