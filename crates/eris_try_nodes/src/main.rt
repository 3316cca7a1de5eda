//! Hands messages to nodes of a system of two shards, of three replicas each, and two clients. A line
//! `NODE WORD WORD ..` makes a new node and hands it these words, in their order: the digits of a message's
//! bytes, or a step of its own. It prints of the last word the message's kind or the step, how much came out,
//! and whether the node is the same as before it; for the word `?`, what the node's calls tell of it. The
//! nodes, and their own steps:
//!
//! - `learner` and `replica`: the first and the second replica of shard 0, with `probe`, `suspect` and `sync`;
//! - `coordinator`, with `nudge`;
//! - `client`: the first client, which waits for a read of a key of each shard, with `retry`;
//! - `general`: the first client, which waits for a general transaction on a key of shard 0;
//! - `sequencer`: that of epoch 0, with `replace`.
//!
//! The line `copy` prints a copy of a finished transaction as a client keeps it. Any other line is printed as it
//! is.
#![tactic(auto)]

mod copying;
mod handing;
mod making;
mod receiving;

use copying::copied;
use eris_coord::Coordinator;
use eris_sequencer::Sequencers;
use handing::hand_all;
use making::{client, config, general, replica};
use std::alloc::Global;

fn main(rt: HostRuntime) -> anyhow::Result<()> {
    for line in rt.lines(rt.alloc()) {
        let line = line?;
        let told = told_of(rt.alloc(), line.as_str())?;
        println!(rt; "{told}")?;
    }
    Ok(())
}

fn told_of(alloc: Global, line: &str) -> anyhow::Result<String> {
    match line.split_once(' ') {
        Some(("learner", words)) => hand_all(alloc, replica(alloc, 0)?, words),
        Some(("replica", words)) => hand_all(alloc, replica(alloc, 1)?, words),
        Some(("coordinator", words)) => hand_all(alloc, Coordinator::new(alloc, config()?), words),
        Some(("client", words)) => hand_all(alloc, client(alloc)?, words),
        Some(("general", words)) => hand_all(alloc, general(alloc)?, words),
        Some(("sequencer", words)) => hand_all(alloc, Sequencers::new(alloc, config()?)?, words),
        None if line == "copy" => copied(alloc),
        _ => Ok(format!(in alloc; "{line}")?),
    }
}
