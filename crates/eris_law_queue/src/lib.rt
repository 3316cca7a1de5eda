//! What is true of a shard's store in every state that it reaches, and why a release need look at few of the
//! packets that wait.
#![tactic(auto)]

mod law;

pub use law::{records_stay, releases_need_no_more, states_are_orderly, values_are_of_the_shard};
