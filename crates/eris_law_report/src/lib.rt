//! The report of every run is in range: what its history, its order and its replicas tell has the ranges of a report's
//! lines, and each of its numbers is one of its type.
#![tactic(auto)]

mod law;

pub use law::reports_are_in_range;
