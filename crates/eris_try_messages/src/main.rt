//! Tries spellings and frames of messages. Each line is a word and digits of bytes:
//!
//! - `show HEX` prints the message of the bytes, or what is wrong with them.
//! - `try HEX` prints the kind, how many bytes there are, how many of the proper prefixes are short at their
//!   length, and how many of the texts with one byte changed to 00, 01, 7f or ff are no message, or one that is
//!   spelled so.
//! - `frame HEX` prints the frame of a message of these bytes.
//! - `halves HEX` prints in how many of the ways to cut that frame in two it is given whole.
//! - `feed HEX HEX ..` prints how many messages a stream gives to each of these pieces.
//!
//! A line that starts with `#` is printed as it is.
#![tactic(auto)]

mod frames;
mod trial;

use frames::{feed, frame, halves};
use std::alloc::Global;
use trial::{show, try_bytes};

fn main(rt: HostRuntime) -> anyhow::Result<()> {
    for line in rt.lines(rt.alloc()) {
        let line = line?;
        let told = told_of(rt.alloc(), line.as_str())?;
        println!(rt; "{told}")?;
    }
    Ok(())
}

fn told_of(alloc: Global, line: &str) -> anyhow::Result<String> {
    match line.split_once(' ') {
        Some(("show", text)) => show(alloc, text),
        Some(("try", text)) => try_bytes(alloc, text),
        Some(("frame", text)) => frame(alloc, text),
        Some(("halves", text)) => halves(alloc, text),
        Some(("feed", pieces)) => feed(alloc, pieces),
        _ => Ok(format!(in alloc; "{line}")?),
    }
}
