//! What a node of a live run knows of itself, from turn to turn: how it replays as it goes on, and
//! which of its fetched packets it hasn't delivered.
#![tactic(auto)]

mod law;

pub use law::{
    fetched_bytes_are_heard, fetches_change_no_replay, own_deliveries_are_all,
    undelivered_packets_are_kept,
};
