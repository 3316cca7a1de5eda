//! What holds of every run of a whole world, over all its epochs.
#![tactic(auto)]

mod law;

pub use law::{
    each_epoch_is_a_run, epochs_never_fall, lists_only_grow, nodes_are_local, replicas_are_local,
    runs_have_moments, stamps_are_numbered,
};
