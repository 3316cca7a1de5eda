//! Lines and words, numbers in decimal digits, the words of keys, operations and plans, and forms: how a value is read from words
//! and written as words, and why a word is refused.
#![tactic(auto)]

mod cutting;
mod line_fault;
mod line_words;
mod number;
mod op_text;
mod plan_text;
mod reason;
mod words;

pub use cutting::{cut, first_line, first_word};
pub use line_fault::LineFault;
pub use line_words::LineWords;
pub use number::{append_decimal, read_number};
pub use op_text::put_ops;
pub use plan_text::put_plan;
pub use reason::Reason;
pub use words::{put_count, put_id, put_number, put_place, put_word};
