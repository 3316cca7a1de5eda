//! A shard's store with locks, and why its answers are those of a plain run without locks and waiting.
//!
//! # What its calls ask
//!
//! All calls but `is_spent` ask that the store isn't spent, and nothing else.
#![tactic(auto)]

mod ledger;
mod lock_store;
mod maps;
mod run;
mod table;

pub use eris_locks::Done;
pub use lock_store::LockStore;
