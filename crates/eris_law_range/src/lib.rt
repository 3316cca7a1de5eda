//! Why what a shard's store answers is in the messages' ranges, whatever packets in their ranges it took.
//! Why a replica keeps to the messages' ranges: what it keeps and what it sends have their fields in them.
#![tactic(auto)]

mod law;

pub use law::{answers_are_in_range, first_state_is_in_range, replica_stays_in_range};
