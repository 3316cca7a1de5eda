//! All nodes and the network between them, over a list of events: each event is one step of one node, or
//! something that the network does.
//!
//! # What its calls ask
//!
//! `apply` asks that the world isn't spent; that the event's fields are in the ranges in which a
//! line can write them (`EventFits`), since the messages that come of it must be spelled by bytes;
//! and that each client can count one more submission and the newest sequencer's epoch isn't the
//! last (`CanGoOn`), since both are numbers of 32 bits. What only reads asks that the world isn't
//! spent. A script within the limit of bytes meets all of it, so `eris_run` asks nothing of a
//! script but its length.
#![tactic(auto)]

mod acting;
mod delivering;
mod hearing;
mod ordering;
mod refusing;
mod reporting;
mod world;

pub use eris_event::Refusal;
pub use world::World;
