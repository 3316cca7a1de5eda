//! A replica over all epochs: its step is the rules' step.
//!
//! # What its calls ask
//!
//! `new` asks for a shard and a replica that the config has. `step` asks that the fields of its
//! input are in the ranges of messages, since what it sends must be spelled by bytes; `receive`
//! takes any bytes. All but `is_spent` ask that the replica isn't spent.
#![tactic(auto)]

mod epochs;
mod replica;
mod settled;
mod steps;

pub use replica::Replica;
