//! Every run of the world is good: its history is serial in its order, and what a replica has settled is how that order
//! begins on its shard.
#![tactic(auto)]

mod law;

pub use law::{every_run_is_good, ranged_events_are_fit, runs_have_evidence};
