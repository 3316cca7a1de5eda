//! A replica within one epoch: its state, and the rows of the rules by which it steps.
//!
//! # What its calls ask
//!
//! `step` asks for an input of the member's own epoch, from nodes that its config has: the replica
//! around it hands on no other.
#![tactic(auto)]

mod input;
mod late;
mod member;
mod packets;
mod probing;
mod sends;
mod settling;
mod showing;
mod speaking;
mod steps;
mod views;

pub use input::MemberInput;
pub use member::EpochMember;
