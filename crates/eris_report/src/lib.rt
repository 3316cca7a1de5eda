//! The text of a report.
#![tactic(auto)]

mod history_text;
mod order_text;
mod replica_text;
mod report_text;

pub use report_text::print_report;
