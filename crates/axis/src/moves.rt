// What a command makes of an axis: a move, a stored position, cleared warnings. And the warnings that are active.
// An axis that may not do it stays as it is.
ghost use Rattle.std.specs.Prelude.{◌≡◌};
ghost use Rattle.flags.specs.Flags.{mask};
ghost use Rattle.axis.specs.Warnings.{active as activeOf};
ghost use Rattle.axis.specs.Moves.{moved as moved_to, store as store_at, cleared as clearedOf};

use crate::travel::is_place;
use crate::{Axis, Motion};
use command::Target;
use units::{Number, Position};

impl Axis {
    // To the target, if the axis may move there.
    #[tactic(auto, unfolding(crate::specs::Aim::aim, crate::specs::Moves::moved))]
    pub(crate) fn moved(self, t: Target) -> Axis
        ensures { result ≡ moved_to t self }
    {
        match self.aim(t) {
            Some(p) => self.with_motion(Motion::To(p)),
            None => self,
        }
    }

    // With p under the number n, from 1 to 16.
    #[tactic(auto, unfolding(crate::specs::Moves::store))]
    pub(crate) fn store(mut self, n: Number, p: Position) -> Axis
        ensures { result ≡ store_at n p self }
    {
        if is_place(n) {
            self.stored[n.place() - 1] = p;
        }
        self
    }

    // All warnings cleared but FD and WR.
    pub(crate) fn cleared(mut self) -> Axis
        ensures { result ≡ clearedOf self }
    {
        self.warnings = self.warnings % 2;
        self
    }

    // The flags that are active, FD to WR, as a mask.
    pub fn active(self) -> u32
        ensures { result ≡ mask (activeOf self) }
    {
        flags::active(self.warnings, !self.reference)
    }
}
