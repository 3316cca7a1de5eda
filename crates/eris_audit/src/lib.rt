//! What it means that a history of transactions is serial: the serial run over one plain map, the five
//! rules that hold a history against an order of its transactions, and the audit by them.
//!
//! # What its calls ask
//!
//! `audit` asks for fewer than 2^32 events and lines, since its verdict names one of them by a
//! number of 32 bits. The serial store's calls ask that it isn't spent.
#![tactic(auto)]

mod judge;
mod order_line;
mod outcome;
mod rules;
mod run;
mod serial_store;
mod tables;
mod verdict;

pub use judge::audit;
pub use order_line::OrderLine;
pub use outcome::Outcome;
pub use serial_store::SerialStore;
pub use verdict::Verdict;
