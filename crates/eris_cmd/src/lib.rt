//! The top call, from the words of a command line and the bytes of a source and a sink to a status; and its core, from a
//! command and bytes in memory to the status and the text that are due.
//!
//! # What its calls ask
//!
//! `answer` and `eris_call` ask nothing.
#![tactic(auto)]

mod answering;
mod call;
mod command;
mod reading;

pub use answering::answer;
pub use call::eris_call;
pub use command::{Command, DrillNumber};
pub use eris_status::{Due, Status};
