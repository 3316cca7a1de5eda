//! Sends texts through sources and sinks. The lines:
//!
//! - `read FAILING LIMIT TEXT` reads up to LIMIT bytes of a source in memory that gives two bytes
//!   at a read, and whose read of number FAILING fails. It prints why the reading ended before the
//!   end, and how many bytes are left.
//! - `write FAILING TEXT` writes to a sink in memory that takes five bytes at a write, and whose
//!   write of number FAILING fails. It prints what was taken.
//! - `sure TEXT` reads a source and writes a sink that never fail. It prints what was taken.
//! - `left TEXT` prints what a source that never fails has to give.
//! - `reader TEXT` reads a reader of the standard library, and prints what came.
//! - `broken TEXT` reads one that fails behind the text, and prints why the reading ended.
//! - `writer TEXT` writes to a writer of the standard library, and prints what was taken.
//! - `narrow TEXT` writes to one that has room for three bytes, and prints how it ended and what
//!   was taken.
//!
//! Any other line is printed as it is.
#![tactic(auto)]

mod memory;
mod standard;

use memory::{left, pass_on, read, write};
use standard::{broken_reader, narrow, reader, writer};
use std::alloc::Global;

fn main(rt: HostRuntime) -> anyhow::Result<()> {
    for line in rt.lines(rt.alloc()) {
        let line = line?;
        let told = told_of(rt.alloc(), line.as_str())?;
        println!(rt; "{told}")?;
    }
    Ok(())
}

fn told_of(alloc: Global, line: &str) -> anyhow::Result<String> {
    match line.split_once(' ') {
        Some(("read", words)) => read(alloc, words),
        Some(("write", words)) => write(alloc, words),
        Some(("sure", text)) => pass_on(alloc, text),
        Some(("left", text)) => left(alloc, text),
        Some(("reader", text)) => reader(alloc, text),
        Some(("broken", text)) => broken_reader(alloc, text),
        Some(("writer", text)) => writer(alloc, text),
        Some(("narrow", text)) => narrow(alloc, text),
        _ => Ok(format!(in alloc; "{line}")?),
    }
}
