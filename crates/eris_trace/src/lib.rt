//! The text of a trace: what each event of a script's run did, step by step. Its words are told here, of plain values; the
//! definitions say what a trace of a run tells, item by item.
#![tactic(auto)]

mod action;
mod body_text;
mod change_text;
mod happened_text;
mod head_text;
mod law;
mod message_text;
mod part_text;
mod standing;
mod step_text;

pub use action::Action;
pub use change_text::put_changes;
pub use happened_text::put_happened;
pub use head_text::{put_end, put_head, put_script_line};
pub use law::sent_lines_are_the_sent_list;
pub use standing::Standing;
pub use step_text::{put_frame, put_lost, put_sent, put_step, put_waiting};
