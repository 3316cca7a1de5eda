//! Sources and sinks of bytes whose faults are counted: the traits, those in memory, those over the standard library's readers and
//! writers, and reading to the end and writing all.
//!
//! # What its calls ask
//!
//! A `MemSource` and a `MemSink` are made with a chunk of at least one byte, since with none no
//! read or write would get on. `write_all` asks that room was made for the whole text, so that no
//! write of it can run out of memory.
#![tactic(auto)]

mod calls;
mod memory;
mod pieces;
mod standard;
mod stream;
mod sure;
mod transfer;

pub use memory::{MemSink, MemSource};
pub use standard::{StdSink, StdSource};
pub use stream::{Failed, Sink, Source};
pub use sure::{SureSink, SureSource};
pub use transfer::{ReadEnd, read_all, write_all};
