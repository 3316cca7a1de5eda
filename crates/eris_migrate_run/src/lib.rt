//! A script of version 1 is migrated: from its bytes to the status and the text that they are due.
//!
//! # What its calls ask
//!
//! Nothing: `migrate_due` takes any bytes, however many.
#![tactic(auto)]

mod due;

pub use due::migrate_due;
