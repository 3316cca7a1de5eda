//! The law of undisturbed scripts: each transaction that such a script submits is answered. It stands on the rules of
//! whole runs.
#![tactic(auto)]

mod law;

pub use law::{first_world_is_calm, undisturbed_runs_answer};
