//! The drill: a day at a bank, made from a number, as the script of a run; and the summary of that run.
//!
//! # What its calls ask
//!
//! A drill's number is 1 to 500; the program's words allow no other.
#![tactic(auto)]

mod accounts;
mod script;
mod steps;
mod summary;
mod summing;
mod turn;

pub use script::{drill_lines, drill_script};
pub use summary::print_summary;
pub use summing::total;
pub use turn::Turn;
