//! Why a shard's store answers as the plain run does, in which there is no lock and no waiting.
#![tactic(auto)]

mod law;

pub use law::{answers_as_if_alone, says_what_came};
