//! The coordinator: it finds the packets that replicas lack or drops their places for good, and closes
//! epochs. Its step is the rules' step.
//!
//! # What its calls ask
//!
//! `step` asks that the fields of its input are in the ranges of messages, since what it sends must
//! be spelled by bytes; `receive` takes any bytes. All but `is_spent` ask that the coordinator
//! isn't spent.
#![tactic(auto)]

mod closing;
mod coordinator;
mod dropping;
mod epochs;
mod finding;
mod notes;
mod packets;
mod places;
mod sends;
mod state;
mod steps;

pub use coordinator::Coordinator;
