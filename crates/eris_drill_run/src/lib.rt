//! The run of a drill, from its number to the status and the text that it is due.
//!
//! # What its calls ask
//!
//! A drill's number is 1 to 500; the program's words allow no other.
#![tactic(auto)]

mod day;

pub use day::drill_due;
