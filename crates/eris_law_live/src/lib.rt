//! A live run: the system whose ten nodes run at once, what one of them may do by what it alone knows, the
//! book of what all of them did, and the laws that join them to the run of a world.
#![tactic(auto)]

mod entry;
mod law;

pub use entry::LiveEntry;
pub use law::{
    books_grow, books_have_live_events, books_have_what_was_sent, events_are_steps,
    first_deliveries_are_few, nodes_are_replays, nodes_have_numbers,
    packets_are_delivered_by_their_nodes, steps_are_taken, undelivered_packets_wait,
};
