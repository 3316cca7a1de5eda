//! An event that a line of a script says, and what a sequencer sends for it, is in the ranges of messages.
#![tactic(auto)]

mod law;

pub use law::{asks_are_in_range, events_are_in_range};
