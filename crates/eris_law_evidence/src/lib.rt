//! From the messages of a run to fronts of its order: what was answered to clients is said over the order for good, and
//! what is stamped later stands behind it.
#![tactic(auto)]

mod law;

pub use law::{answers_begin_the_order, later_means_after, what_is_counted_is_said};
