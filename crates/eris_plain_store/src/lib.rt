//! A shard's store, as what it has to do and as plainly as it can be done: the trait of all such stores, a
//! run of one over a list of packets, and the plain store, which looks through lists. The other stores are
//! compared with it.
//!
//! # What its calls ask
//!
//! All calls of a store but `is_spent` ask that it isn't spent, and nothing else.
#![tactic(auto)]

mod cells;
mod cutting;
mod ledger;
mod lists;
mod locking;
mod locks;
mod packets;
mod plain_store;
mod run;

pub use cells::Cells;
pub use cutting::cut;
pub use eris_locks::Done;
pub use locking::{is_blocked, is_exclusive, locks_of};
pub use locks::Locks;
pub use packets::{
    add_aborted_late, done_for, holds, is_prelim, no_longer_holding, no_longer_waiting, only,
    waits, waits_prelim,
};
pub use plain_store::PlainStore;
pub use run::{add_all, run_locks};
