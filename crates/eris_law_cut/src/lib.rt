//! A closed cut of settled logs is a past of the world's order, and a copy made from it shows that past.
#![tactic(auto)]

mod law;

pub use law::{settled_cuts_are_cuts, the_copy_is_the_past, the_past_stands};
