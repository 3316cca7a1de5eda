//! What a replica knows of one epoch: the packets that it holds, and the places that were dropped for a
//! time, found, or dropped for good.
//!
//! # What its calls ask
//!
//! A part is of one epoch and one shard: the calls that add to it ask for packets and places of
//! that epoch (and packets that name the shard), and `of_lists` for lists that are a part's.
//! Whoever has a message first compares its epoch.
#![tactic(auto)]

mod entries;
mod entry;
mod held;
mod merge;
mod part;
pub mod places;
pub mod sorted;
mod walk;

pub use entry::Entry;
pub use merge::Merge;
pub use part::Part;
