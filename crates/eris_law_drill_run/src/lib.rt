//! The laws of a drill's run: no event of it is refused but for a limit; its opening is undisturbed, so the accounts'
//! first puts are answered; all that is to be submitted is, in order; and at its end the accounts have 16000 together.
//! The law of what comes of a drill's bytes: the world after its events, or a line that meets a limit.
#![tactic(auto)]

mod law;

pub use law::{drills_are_taken, drills_end, drills_keep_their_money, openings_are_undisturbed};
