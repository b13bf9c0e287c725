// The limits of travel: where a move would end, if the axis may make it.
// Every target is compared with the limits as it is: none is brought into them.
ghost use Rattle.std.specs.Prelude.{◌≡◌};
ghost use Rattle.axis.specs.Aim.{within as withinLimits, aim as aim_of};
ghost use Rattle.axis.specs.Travel.{is_place, stored as storedOf, between as betweenLimits, may_move_to, may_run_at, may_store};

use crate::{Axis, STORED};
use command::Target;
use units::{Number, Position, Speed};

// Is it a number from 1 to 16?
pub(crate) fn is_place(n: Number) -> bool
    ensures { result ≡ is_place n }
{
    (1..=STORED).contains(&n.place())
}

impl Axis {
    // The position stored under a number from 1 to 16; 0 under any other.
    #[tactic(auto, unfolding(crate::specs::Travel::stored))]
    pub fn stored_at(self, n: Number) -> Position
        ensures { result ≡ storedOf n self }
    {
        if is_place(n) {
            self.stored[n.place() - 1]
        } else {
            Position(0)
        }
    }

    // Where a move would end, if that lies between the limits.
    fn within_limits(self, t: Target) -> Option<Position>
        ensures { result ≡ withinLimits t self }
    {
        let limit = self.settings.limit;
        match t {
            Target::Abs(p) => p.reach(limit.min, limit.max),
            Target::Rel(p) => self.settings.pos.plus(p, limit.min, limit.max),
            Target::Min => limit.min.reach(limit.min, limit.max),
            Target::Max => limit.max.reach(limit.min, limit.max),
            Target::Stored(n) if is_place(n) => self.stored_at(n).reach(limit.min, limit.max),
            Target::Stored(_) => None,
        }
    }

    // Where a move would end, if the axis may make it.
    #[tactic(auto, unfolding(crate::specs::Aim::aim, crate::specs::Travel::may_move_to))]
    pub(crate) fn aim(self, t: Target) -> Option<Position>
        ensures { result ≡ aim_of t self }
    {
        if self.reference {
            self.within_limits(t)
        } else {
            None
        }
    }

    #[tactic(auto, unfolding(crate::specs::Aim::aim))]
    pub(crate) fn may_move_to(self, t: Target) -> bool
        ensures { result ≡ may_move_to t self }
    {
        self.aim(t).is_some()
    }

    #[tactic(auto, unfolding(crate::specs::Travel::may_run_at))]
    pub(crate) fn may_run_at(self, v: Speed) -> bool
        ensures { result ≡ may_run_at v self }
    {
        v.within(self.settings.maxspeed)
    }

    fn between(self, p: Position) -> bool
        ensures { result ≡ betweenLimits self p.0 }
    {
        p.within(self.settings.limit.min, self.settings.limit.max)
    }

    #[tactic(auto, unfolding(crate::specs::Travel::may_store))]
    pub(crate) fn may_store(self, n: Number, p: Position) -> bool
        ensures { result ≡ may_store n p self }
    {
        is_place(n) && self.between(p)
    }
}
