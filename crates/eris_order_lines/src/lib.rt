//! The lines of an order: which transactions a list of packets makes, and what became of each. And whether a
//! packet stands in a list, or is held by a part, by which the order's packets are chosen.
#![tactic(auto)]

mod firsts;
mod ids;
mod lines;
mod outcomes;
mod survivors;

pub use lines::order_lines;
pub use survivors::{has_packet, is_listed};
