// The axes that a number means: how many, asked, their flags joined.
// Axis 0 means all axes up to the count.
ghost use Rattle.std.specs.Prelude.{◌≡◌};
ghost use Rattle.laws.specs.Lists.{all, any};
ghost use Rattle.flags.specs.Flags.{mask, union};
ghost use Rattle.axis.specs.Record.{moving as movingOf};
ghost use Rattle.axis.specs.Commands.{permits as permitsOf};
ghost use Rattle.axis.specs.Warnings.{active as activeOf};
ghost use Rattle.device.specs.Each.{stretch_of};
ghost use Rattle.device.specs.Record.{many as manyOf, axes_of};

use crate::Device;
use crate::walks::Stretch;
use command::AxisCommand;

impl Device {
    // How many axes k means.
    #[tactic(auto, unfolding(crate::specs::Record::many))]
    pub fn many(self, k: u64) -> u64
        ensures { result ≡ manyOf self k }
    {
        if k == 0 { u64::from(self.count) } else { 1 }
    }

    // The axis places that k means; there are four.
    pub fn stretch(self, k: u64) -> Stretch
        ensures { result ≡ stretch_of (manyOf self k) k }
    {
        crate::walks::stretch_of(k, self.many(k))
    }

    // Does every axis that k means permit the command's values?
    #[tactic(auto, unfolding(crate::specs::Record::axes_of))]
    pub fn permits(self, k: u64, c: AxisCommand) -> bool
        ensures { result ≡ all (permitsOf c) (axes_of self k) }
    {
        crate::walks::ask_each(self.axes, k, self.many(k), c)
    }

    // Does some axis that k means move?
    #[tactic(auto, unfolding(crate::specs::Record::axes_of))]
    pub fn moving(self, k: u64) -> bool
        ensures { result ≡ any movingOf (axes_of self k) }
    {
        crate::walks::any_moving(self.axes, k, self.many(k))
    }

    // The flags that are active on some axis that k means, FD to WR, as a mask.
    #[tactic(auto, unfolding(crate::specs::Record::axes_of))]
    pub fn active(self, k: u64) -> u32
        ensures { result ≡ mask (union activeOf (axes_of self k)) }
    {
        crate::walks::join_flags(self.axes, k, self.many(k))
    }
}
