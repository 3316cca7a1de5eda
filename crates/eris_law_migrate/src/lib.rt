//! What migrating keeps: a script of version 1 and its migrated text say the same, line by line.
#![tactic(auto)]

mod law;

pub use law::migrated_scripts_mean_the_same;
