// When the record of one axis is good.
// The settings answer for themselves.
ghost use Rattle.std.specs.Prelude.{◌≡◌};
ghost use Rattle.laws.specs.Lists.{all};
ghost use Rattle.axis.specs.Good.{good_position, good_motion, good_axis};

use crate::{Axis, Motion};
use units::Position;

impl Motion {
    fn good(self) -> bool
        ensures { result ≡ good_motion self }
    {
        match self {
            Motion::Idle => true,
            Motion::Homing => true,
            Motion::To(p) => p.bounded(),
            Motion::At(v) => v.bounded(),
            Motion::Stopping => true,
        }
    }
}

// Is every stored position within ±1000000000?
fn all_bounded(stored: &[Position]) -> bool
    ensures { result ≡ all good_position stored.now }
{
    stored.iter().fold(true, |bounded, p| bounded & p.bounded())
}

impl Axis {
    #[tactic(auto, unfolding(crate::specs::Good::good_axis))]
    pub fn good(self) -> bool
        ensures { result ≡ good_axis self }
    {
        self.settings.good() && all_bounded(&self.stored) && self.motion.good()
    }
}
