//! The network: every message that was ever sent, kept for good in its frame under its number, and the
//! numbers of those that still wait.
//!
//! # What its calls ask
//!
//! `send` and `frame_sends` ask for messages whose fields are in range, since they are kept as frames;
//! `frame_sends` also that what was sent before is within the limits. The calls that name a message by
//! its number ask that it was sent.
#![tactic(auto)]

mod counted;
mod frames;
mod kept;
mod network;
mod send_fault;
mod sent_counts;
mod waiting;

pub use frames::{Frames, frame_sends};
pub use network::Network;
pub use send_fault::SendFault;
pub use sent_counts::SentCounts;
