//! The laws of the drill: what its script says, and that the accounts of its bank have 16000 together after any run.
//! The law of the drill's bytes: they are a script, which says the drill's events.
#![tactic(auto)]

mod law;

pub use law::{days_keep_the_sum, drills_are_read, drills_are_scripts, serial_orders_are_days};
