//! The laws of one client over its own course, whatever it is given: how far each of its transactions is, and
//! what its votes, its counted shards, its events and its asks rest on. They know no network and no other node.
#![tactic(auto)]

mod law;

pub use law::{asks_rest, counted_is_evidence, counts_what_came, courses_stand, events_rest};
