// What several programs do alike: a stream is read to a buffer, and the speed programs sum up what was answered.
// No record is known here.
#![tactic(auto)]

pub mod reading;
pub mod sums;
