//! The protocol's rules: the step of each kind of node, all nodes with the network between them, the run of
//! a list of events, the order that a run makes, and what makes a run good. They are definitions; this crate
//! has no code but the plain types that rules and nodes share, and what sends a message to several nodes.
#![tactic(auto)]

mod coord_input;
mod replica_input;
mod replica_status;
mod telling;
mod transaction;

pub use coord_input::CoordInput;
pub use eris_event::Refusal;
pub use replica_input::ReplicaInput;
pub use replica_status::ReplicaStatus;
pub use telling::{tell, tell_each};
pub use transaction::{Course, Transaction, Vote};
