//! Whole runs over several epochs, computed: nothing in the laws of epochs and answers is vacuous.
#![tactic(auto)]

mod law;

pub use law::{
    answers_are_said_ever_after, epochs_are_skipped, quorums_close_without_learners,
    sequencers_go_on, views_change_after_drops,
};
