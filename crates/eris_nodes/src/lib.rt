//! All replicas and all clients of a system, each under its number.
//!
//! # What its calls ask
//!
//! What the nodes themselves ask: fields in the ranges of messages, and that none is spent. A node
//! of a number that isn't there takes everything and does nothing.
#![tactic(auto)]

mod act;
mod clients;
mod members;
mod replicas;

pub use act::Act;
pub use clients::Clients;
pub use members::{count_of, has_crashed};
pub use replicas::Replicas;
