//! Stamping: one sequencer for each epoch, which counts the packets of each shard and gives every shard of
//! a packet its next number in one step.
//!
//! # What its calls ask
//!
//! `Sequencer::stamp` asks for a body with participants that the sequencer counts, since a stamp
//! names one number for each; the calls of `Sequencers` ask that they aren't spent, and `replace`
//! that the newest epoch isn't the last of 32 bits.
#![tactic(auto)]

mod asks;
mod counters;
mod sends;
mod sequencer;
mod sequencers;
mod stamp_fault;
mod stamping;

pub use sequencer::Sequencer;
pub use sequencers::Sequencers;
pub use stamp_fault::StampFault;
