//! What a past of an order says of the whole: nothing is held at its end, and what it has is so in the whole order too.
#![tactic(auto)]

mod law;

pub use law::{closed_cuts_are_pasts, nothing_holds_there, pasts_begin_the_run, pasts_stand};
