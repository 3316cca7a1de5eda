//! Tallies of a replica: the parts that it noted on its way into a view, and the lengths that the others
//! acknowledged to the learner of a view.
//!
//! # What its calls ask
//!
//! The tallies ask for what their shard has: an f of at most 3, a replica of the 2f + 1, and a part
//! of the same epoch and shard.
#![tactic(auto)]

mod ack_tally;
mod view_tally;

pub use ack_tally::AckTally;
pub use view_tally::ViewTally;
