//! Whether a message is in place at a replica, at the coordinator and at a client, as the protocol's rules
//! ask of it. A node takes no other message, so bytes that decode but that no node would send do no harm.
//! No call takes memory.
//!
//! # What its calls ask
//!
//! No call asks anything.
#![tactic(auto)]

mod in_place;
mod kinds;
mod known;
mod logs;
mod participants;
mod parts;

pub use in_place::{is_in_place_at_client, is_in_place_at_coordinator, is_in_place_at_replica};
