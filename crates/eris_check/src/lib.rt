//! The text of a report, read: bytes that are one give the report, and others the number of the first line that doesn't fit.
//!
//! # What its calls ask
//!
//! `parse_report` asks for fewer than 4,294,967,295 bytes, since it names a line by a number of 32 bits.
#![tactic(auto)]

mod cutting;
mod draft;
mod fault;
mod fields;
mod fixed_words;
mod head_line;
mod history_line;
mod items;
mod law;
mod order_line;
mod parse;
mod plan_line;
mod replica_line;
mod replicas;
mod report_line;

pub use fault::ReportFault;
pub use law::{bytes_are_judged, no_bytes_misfit_at_one};
pub use parse::parse_report;
