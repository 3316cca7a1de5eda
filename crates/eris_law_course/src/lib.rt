//! A run of a whole world as the courses of its clients: each client's state, history and asks are those of its own
//! course, and the world's history is the merge of theirs.
//! Where each stamped packet of a run comes from: an Ask of a client, with its origin in the history.
#![tactic(auto)]

mod law;

pub use law::{histories_are_merged, packets_were_asked, runs_are_courses};
