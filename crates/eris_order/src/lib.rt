//! The order of packets: which transactions a list of packets makes, in which order, with what became of
//! each, and which of the packets a shard sees. They are definitions; this crate has no code.
#![tactic(auto)]
