//! An index of a list of packets by the first places of their stamps, by which a packet is found in the list
//! without a walk through it.
#![tactic(auto)]

mod index;

pub use index::PacketIndex;
