// What a command is refused for, and what a motor report does to the device record: the number of the refusal, or 0, and the next record.
// The rules are in specs/: Refusals.antt, Effects.antt, Reports.antt.
#![tactic(auto)]

pub mod refusals;
pub mod reports;
