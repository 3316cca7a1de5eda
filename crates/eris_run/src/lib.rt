//! The run of a script: from its bytes to the world after it, and to the status and the text that they are due.
//!
//! # What its calls ask
//!
//! `run_bytes` asks for at most `INPUT_LIMIT` bytes, so that no count of lines or submissions can
//! pass 32 bits. `script_due` asks nothing.
#![tactic(auto)]

mod due;
mod line_run;
mod script_run;

pub use due::{INPUT_LIMIT, script_due};
pub use eris_event::Limit;
pub use eris_status::{Due, Refused, Status, Stop, Why, refuse_input, refuse_line};
pub use script_run::run_bytes;
