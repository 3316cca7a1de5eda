//! Cuts of the shards' lists of packets, one prefix of each list: which are closed, which is the greatest, and which
//! packets of an order stand within one. They are definitions, with their first laws.
#![tactic(auto)]

mod law;

pub use law::one_cut_is_greatest;
