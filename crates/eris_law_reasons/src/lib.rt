//! Why a script's lines are refused that no system has seen: the grammar gives a reason of its own, never one of a
//! system's state.
#![tactic(auto)]

mod law;

pub use law::lines_are_refused_by_the_grammar;
