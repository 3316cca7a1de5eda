//! Messages in a stream of bytes: each behind its length, taken out of the stream in whatever pieces it comes.
#![tactic(auto)]

mod feed;
mod framing;

pub use feed::{FrameFeed, pieces_join};
pub use framing::{FrameFault, put_frame};
