//! What closing keeps, and what the order across epochs has.
#![tactic(auto)]

mod law;

pub use law::{closing_keeps_what_was_spoken, left_epochs_are_done, settled_logs_begin_the_order};
