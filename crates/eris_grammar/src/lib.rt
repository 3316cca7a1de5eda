//! The grammar of scripts: headers and lines in both versions, read and written.
//!
//! # What its calls ask
//!
//! A version is 1 or 2: there is no other grammar. The bytes that are read may be any.
#![tactic(auto)]

mod clause;
mod event_line;
mod event_text;
mod fields;
mod fixed_words;
mod grammar;
mod header;
mod header_line;
mod hex;
mod line;
mod op_line;
mod parse;
mod plan_line;

pub use clause::Clause;
pub use event_text::print_event;
pub use grammar::every_line_is_read_as_spelled;
pub use header::Header;
pub use header_line::parse_header;
pub use line::Line;
pub use op_line::ops_of;
pub use parse::parse_line;
pub use plan_line::plan_of;
