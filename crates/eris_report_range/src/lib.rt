//! In which ranges the fields of a report are. They are definitions; this crate has no code.
#![tactic(auto)]
