// Walks over the axis places of a device: whether they are good, whether one moves, their flags joined, what a command asks and does.
// The places are n from the number k on, or as many of them as there are; k is 1 for the first, and 0 means the same.
ghost use Rattle.std.specs.Prelude.{◌≡◌, true, cond, ◌&&◌, ◌-◌, take, drop};
ghost use Rattle.laws.specs.Lists.{all, any, change_from};
ghost use Rattle.flags.specs.Flags.{bits, mask, either, union};
ghost use Rattle.axis.specs.Record.{moving as movingOf};
ghost use Rattle.axis.specs.Good.{good_axis};
ghost use Rattle.axis.specs.Commands.{permits as permitsOf, axis_after};
ghost use Rattle.axis.specs.Warnings.{active as activeOf};
ghost use Rattle.device.specs.Each.{stretch_of, covers as coversAt};

use axis::Axis;
use command::AxisCommand;

// Some neighbouring axis places.
#[derive(Clone, Copy)]
pub struct Stretch {
    pub from: usize,
    pub many: usize,
}

// The n places from the number k on, of the four that there are.
#[tactic(auto, unfolding(crate::specs::Each::stretch_of))]
pub(crate) fn stretch_of(k: u64, n: u64) -> Stretch
    ensures { result ≡ stretch_of n k }
{
    let from = (k.saturating_sub(1) as usize).min(4);
    let many = (n as usize).min(4 - from);
    Stretch { from, many }
}

impl Stretch {
    // Is the axis at place i, from 0, one of the stretch?
    #[tactic(auto, unfolding(crate::specs::Each::covers))]
    fn covers(self, i: usize) -> bool
        ensures { result ≡ coversAt self i }
    {
        self.from <= i && i - self.from < self.many
    }
}

// Is every axis good, of the first n?
pub(crate) fn all_good(axes: [Axis; 4], n: u64) -> bool
    ensures { result ≡ all good_axis (take n axes) }
{
    axes.iter().take(n as usize).all(|a| a.good())
}

// Does the axis at place i move, and is it one of the stretch?
fn moves_at(p: Stretch, i: usize, a: Axis) -> bool
    ensures { result ≡ (coversAt p i && movingOf a) }
{
    p.covers(i) & a.moving()
}

// Does some of these axes move? Each place is named, so that no axis is copied to be looked at.
pub(crate) fn any_moving(axes: [Axis; 4], k: u64, n: u64) -> bool
    ensures { result ≡ any movingOf (take n (drop (k - 1) axes)) }
{
    let p = stretch_of(k, n);
    let a = moves_at(p, 0, axes[0]);
    let b = moves_at(p, 1, axes[1]);
    let c = moves_at(p, 2, axes[2]);
    let d = moves_at(p, 3, axes[3]);
    a | (b | (c | d))
}

// Does the axis at place i permit the command's values, or is it none of the stretch?
fn asked_at(p: Stretch, i: usize, a: Axis, c: AxisCommand) -> bool
    ensures { result ≡ cond (coversAt p i) (permitsOf c a) true }
{
    if p.covers(i) {
        axis::commands::permits(a, c)
    } else {
        true
    }
}

// Does each of these axes permit the command's values?
pub(crate) fn ask_each(axes: [Axis; 4], k: u64, n: u64, c: AxisCommand) -> bool
    ensures { result ≡ all (permitsOf c) (take n (drop (k - 1) axes)) }
{
    let p = stretch_of(k, n);
    let x = asked_at(p, 0, axes[0], c);
    let y = asked_at(p, 1, axes[1], c);
    let z = asked_at(p, 2, axes[2], c);
    let w = asked_at(p, 3, axes[3], c);
    x & (y & (z & w))
}

// The flags of the axis at place i joined to those in w, or w alone where it is none of the stretch.
fn join_at(p: Stretch, i: usize, a: Axis, w: u32) -> u32
    ensures { result ≡ mask (either (cond (coversAt p i) (activeOf a) (bits 8 0)) (bits 8 w)) }
{
    if p.covers(i) {
        flags::union(a.active(), w)
    } else {
        flags::union(0, w)
    }
}

// The flags that are active on some of these axes, FD to WR, as a mask. Each place is named here too.
pub(crate) fn join_flags(axes: [Axis; 4], k: u64, n: u64) -> u32
    ensures { result ≡ mask (union activeOf (take n (drop (k - 1) axes))) }
{
    let p = stretch_of(k, n);
    let d = join_at(p, 3, axes[3], 0);
    let c = join_at(p, 2, axes[2], d);
    let b = join_at(p, 1, axes[1], c);
    join_at(p, 0, axes[0], b)
}

// These axes after the command, and all other places as they are.
#[tactic(auto, using(crate::proofs::Stretches::stretch_inside))]
pub fn change_each(mut axes: [Axis; 4], k: u64, n: u64, c: AxisCommand) -> [Axis; 4]
    ensures { result ≡ change_from (axis_after c) (k - 1) n axes }
{
    let p = stretch_of(k, n);
    for a in &mut axes[p.from..p.from + p.many] {
        *a = axis::commands::after(*a, c);
    }
    axes
}
