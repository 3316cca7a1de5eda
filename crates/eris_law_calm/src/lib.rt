//! What a node does in a run that nothing disturbs: a replica that gets the packets of its shard in their order speaks
//! for each at once, and a majority's votes count a shard. Its definitions say what holds at every moment of such a run.
#![tactic(auto)]

mod law;

pub use law::{majorities_are_counted, replicas_speak_at_once};
