// What bench and cable are given: its parts, with the texts that are printed for them, and the lines of motor reports.
// The rules are in specs/. No record is known here.
#![tactic(auto)]

pub mod parts;
pub mod reports;
