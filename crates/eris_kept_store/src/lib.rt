//! A shard's store that is kept at a number of an epoch, so that a replica answers for the next number by
//! one step.
//!
//! # What its calls ask
//!
//! What is kept is right for the packets of the epochs before and the part that are handed in beside it.
//! Nothing kept is always right.
#![tactic(auto)]

mod answering;
mod kept_store;
mod logs;
mod stepping;

pub use answering::answer_at;
pub use kept_store::{KeptStore, kept_beside};
pub use logs::{is_open, log_upto};
