// One axis of the carriage: its settings, its motion, its reference, its warnings and its stored positions, by value.
// The rules are in specs/; the limits of travel are in specs/Travel.antt.
#![tactic(auto)]

ghost use Rattle.std.specs.Prelude.{◌≡◌};
ghost use Rattle.axis.specs.Record.{with_settings, with_motion, in_motion, is_homing, moving, stopped, fresh_axis};

use settings::Settings;
use units::{Position, Speed};

// "each axis sixteen stored positions"
pub const STORED: usize = 16;

// The motion of an axis.
#[derive(Clone, Copy)]
pub enum Motion {
    Idle,
    Homing,
    To(Position),
    At(Speed),
    Stopping,
}

// One axis place. The mask's bits 0 to 6 are the warnings FD to FE; WR is active where there is no reference.
#[derive(Clone, Copy)]
pub struct Axis {
    pub settings: Settings,
    pub motion: Motion,
    pub reference: bool,
    pub warnings: u32,
    pub stored: [Position; STORED],
}

impl Motion {
    pub(crate) fn moving(self) -> bool
        ensures { result ≡ in_motion self }
    {
        !matches!(self, Motion::Idle)
    }

    pub(crate) fn homing(self) -> bool
        ensures { result ≡ is_homing self }
    {
        matches!(self, Motion::Homing)
    }
}

impl Axis {
    pub(crate) fn with_settings(self, settings: Settings) -> Axis
        ensures { result ≡ with_settings settings self }
    {
        Axis { settings, ..self }
    }

    pub(crate) fn with_motion(self, motion: Motion) -> Axis
        ensures { result ≡ with_motion motion self }
    {
        Axis { motion, ..self }
    }

    pub fn moving(self) -> bool
        ensures { result ≡ moving self }
    {
        self.motion.moving()
    }

    // A moving axis is stopping, an idle one stays idle.
    #[tactic(auto, unfolding(crate::specs::Record::stopped))]
    pub(crate) fn stopped(self) -> Axis
        ensures { result ≡ stopped self }
    {
        if self.moving() {
            self.with_motion(Motion::Stopping)
        } else {
            self
        }
    }

    #[tactic(auto, unfolding(crate::specs::Record::fresh_axis))]
    pub fn fresh() -> Axis
        ensures { result ≡ fresh_axis }
    {
        Axis {
            settings: Settings::fresh(),
            motion: Motion::Idle,
            reference: false,
            warnings: 0,
            stored: [Position(0); STORED],
        }
    }
}

pub mod commands;
pub mod good;
pub mod moves;
pub mod reports;
pub mod travel;
