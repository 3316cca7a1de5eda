//! A script of version 1 in the spelling of version 2. It is a change of bytes and words: nothing is run, and no event is kept.
//!
//! # What its calls ask
//!
//! `migrate` asks for at most 4294967294 bytes, so that the number of each line fits in 32 bits.
#![tactic(auto)]

mod fault;
mod reading;
mod spelling;
mod text;

pub use fault::MigrateFault;
pub use text::migrate;
