//! What holds within one epoch, over every schedule: the machine of one epoch by itself, that nothing in it is undone,
//! that each message has a cause, and that a number names one packet.
#![tactic(auto)]

mod law;

pub use law::{nothing_is_undone, numbers_name_packets};
