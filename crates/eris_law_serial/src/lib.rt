//! Why a history is serial where there is evidence for it, by an order of packets.
#![tactic(auto)]

mod law;

pub use law::{evidence_makes_serial, lines_follow_the_order, origins_suffice};
