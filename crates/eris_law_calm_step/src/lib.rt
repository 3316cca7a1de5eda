//! What holds at every moment of a run that nothing disturbs holds after each of its events.
#![tactic(auto)]

mod law;

pub use law::calm_worlds_stay_calm;
