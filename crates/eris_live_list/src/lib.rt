//! What the clients of a live run submit, each by draws of its own; and the definitions of a live
//! run's journal: its rounds, the submissions in it, its first deliveries, and how many of its
//! events are anything else.
//!
//! # What its calls ask
//!
//! Nothing.
#![tactic(auto)]

mod law;
mod list;

pub use law::{
    journals_are_counted, lists_begin_each_other, rounds_are_cut,
    small_journals_are_cut_and_counted,
};
pub use list::{client_generator, next_submission};
