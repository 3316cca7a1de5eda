//! The texts that a run reads and writes: the events of a script and the grammar of its lines, the reasons for which a line is
//! refused, and the report. This crate has no code of its own.
#![tactic(auto)]

pub use eris_event::{Event, ReplicaLine, ReplicaState, Report};
pub use eris_grammar::{
    Header, Line, every_line_is_read_as_spelled, parse_header, parse_line, print_event,
};
pub use eris_report::print_report;
pub use eris_words::{LineFault, Reason, append_decimal, first_line, first_word, read_number};
