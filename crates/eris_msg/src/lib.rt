//! The messages that nodes send each other, and how each is spelled by bytes and read from them.
//!
//! # What its calls ask
//!
//! `encode` asks that the message's fields are in their ranges, since no bytes spell another;
//! `decode` asks nothing, and neither do frames.
#![tactic(auto)]

mod decoding;
mod encoding;
mod message;
mod outgoing;
mod read_messages;
mod write_messages;

pub use decoding::decode;
pub use encoding::{encode, spellings_differ};
pub use eris_codec::{DecodeFault, DecodeReason};
pub use eris_frame::{FrameFault, FrameFeed, pieces_join, put_frame};
pub use message::Message;
pub use outgoing::Outgoing;
