//! What a protocol owes so that its order of packets makes a history serial: evidence, which speaks of
//! transactions, packets and what the shards' stores say over the order, and of no node and no message. And
//! the bridges to it from what protocols have: logs, the shards' answers, and the order of stamping.
#![tactic(auto)]

mod bridges;

pub use bridges::{
    counted_stands, joined_is_evidence, logs_say, shards_join, sizes_suffice, stamped_later,
};
