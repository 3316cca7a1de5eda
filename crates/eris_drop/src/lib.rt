//! Counting of temporary drops: which replicas dropped a place for a time, when a place is decided, and
//! what a replica answers when it is asked about a place.
#![tactic(auto)]

mod drop_count;
mod drop_note;
mod quorums;
mod request;

pub use drop_count::DropCount;
pub use drop_note::DropNote;
pub use request::{RequestAnswer, answer_request};
