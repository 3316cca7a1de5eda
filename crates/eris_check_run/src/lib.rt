//! A report is judged: from its bytes to the status and the text that they are due.
//!
//! # What its calls ask
//!
//! Nothing: `check_due` takes any bytes, however many.
#![tactic(auto)]

mod due;
mod law;
mod texts;

pub use due::{CHECK_LIMIT, check_due};
pub use law::ranged_reports_pass;
