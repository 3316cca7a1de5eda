//! The ground that every other crate stands on: names of nodes, a config in its limits, stamps whose shards ascend, rows of
//! items, and copies.
//!
//! # What its calls ask
//!
//! `learner` asks for an f of at most 3, the limit of a config; `Row::insert` for a place within
//! the row or at its end. No other call asks anything.
#![tactic(auto)]

mod config;
mod copying;
mod ids;
mod ids_told;
mod no_memory;
mod quorum;
mod row;
mod stamp;

pub use config::{Config, ConfigFault};
pub use copying::{Dup, Same};
pub use ids::{ClientId, Epoch, Node, Phase, Place, ReplicaId, ShardId, TxnId, View};
pub use ids_told::{is_among, is_same_id};
pub use no_memory::NoMemory;
pub use quorum::{is_quorum, learner};
pub use row::Row;
pub use stamp::Stamp;
