//! How a call ends: the statuses, what is due for a refused line, and the telling of a text.
#![tactic(auto)]

mod due;
mod failure;
mod refused;
mod status;
mod telling;
mod texts;

pub use due::{Due, refuse_input, refuse_line};
pub use failure::Failure;
pub use refused::{Refused, Stop, Why, stop_at};
pub use status::Status;
pub use telling::tell;
pub use texts::too_large_text;
