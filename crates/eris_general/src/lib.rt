//! The course of a general transaction at its client: from the values that its first half read to its
//! second half, and from the shards' answers to its outcome.
//!
//! # What its calls ask
//!
//! `on_prelim` asks that it wasn't called before, and for as many values as the plan has keys: it
//! is one step of the course, and the client counts exactly these.
#![tactic(auto)]

mod pending;

pub use pending::{Pending, is_aborted};
