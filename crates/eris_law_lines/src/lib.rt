//! What is written line by line is a script: a header, and a line of each event.
#![tactic(auto)]

mod law;

pub use law::{written_events_are_a_script, written_lines_are_cut};
