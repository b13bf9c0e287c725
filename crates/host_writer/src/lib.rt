// Writes what the host sends: a command's line. The code that writes stands in names.rt, rows.rt, lines.rt and writing.rt.
// specs/Writing.antt says the line.
#![tactic(auto)]

mod lines;
mod names;
mod rows;
pub mod writing;
