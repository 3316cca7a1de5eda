//! The closing of an epoch: the parts that the coordinator noted on its way into the next one, the packets
//! that survive, and each shard's log of them.
#![tactic(auto)]

mod closing;
mod epoch_tally;
mod noted;

pub use closing::shard_log;
pub use epoch_tally::EpochTally;
pub use noted::NotedPart;
