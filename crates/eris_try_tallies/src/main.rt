//! Tallies by the steps of a line: `NAME SIZES, STEP, STEP, ..`. It makes what NAME says, of these
//! sizes, takes the steps in their order, and prints what they tell. A PLACE is SHARD.NUMBER, and a
//! PACKET is CLIENT.OWN.OTHER: of whom it is, and its numbers of shards 0 and 1, where 0 is none.
//!
//! - `drops SHARDS F` counts the replicas that dropped a place for a time: `note PLACE
//!   SHARD.REPLICA.VIEW`, `forget PLACE`, and `decided PLACE`, which tells whether it is.
//! - `part EPOCH SHARD` is a replica's part of the log: `hold PACKET` and `find PACKET` take a
//!   packet, `temp PLACE` and `drop PLACE` drop a place for a time and for good, and `request PLACE`
//!   tells what the replica answers.
//! - `view VIEW F` notes the parts on the way into a view: `part REPLICA`, and `ready REPLICA`,
//!   which tells whether that replica may begin it.
//! - `union PACKET REPLICA PACKET REPLICA PACKET REPLICA PACKET` has no steps. It merges the parts
//!   that came from three replicas, in this order, into an own one, which holds the first packet. It
//!   tells what the own part holds then.
//! - `acks F` notes what the replicas acknowledged: `note REPLICA LENGTH`, and `settled OWN`, which
//!   tells how far a quorum has come where the own length is OWN.
//! - `epoch TARGET SHARDS F` notes the parts on the way into an epoch: `part EPOCH SHARD REPLICA
//!   PACKET ..` is a replica's part that holds these packets, and `ready` tells whether the epoch may
//!   begin. `found EPOCH PACKET` adds a packet that was found, `dropped EPOCH PLACE` a place that was
//!   dropped for good. `close EPOCH` closes this epoch and tells the clients of the packets that are
//!   left, in their order, and `shard SHARD` of those that were found and are the shard's, in its
//!   order.
//! - `sequencers SHARDS F` are those of all epochs, with two clients. `ask EPOCH SHARD ..` tells how
//!   often the packet is sent, and to whom first and last; `stamp EPOCH SHARD ..` tells its places.
//!   `request EPOCH PLACE` hands over a message that is no ask, and tells as much as `ask`. `replace`
//!   begins an epoch, `stamped EPOCH` tells how many packets it has, and `newest` the highest epoch,
//!   and whether memory was refused.
//! - `sequencer EPOCH F` is that of one epoch, for three shards: `stamp SHARD ..` tells its counters
//!   of shards 0 to 3.
//!
//! Any other line is printed as it is.
#![tactic(auto)]

mod closing;
mod drops;
mod packets;
mod stamping;
mod steps;
mod views;

use closing::Closing;
use drops::empty_part;
use eris_drop::DropCount;
use eris_sequencer::Sequencers;
use packets::config;
use stamping::Counting;
use std::alloc::Global;
use steps::{Words, take_all};
use views::{Acknowledged, tally, union};

fn main(rt: HostRuntime) -> anyhow::Result<()> {
    for line in rt.lines(rt.alloc()) {
        let line = line?;
        let told = told_of(rt.alloc(), line.as_str())?;
        println!(rt; "{told}")?;
    }
    Ok(())
}

fn told_of(alloc: Global, line: &str) -> anyhow::Result<String> {
    let (sizes, steps) = line.split_once(", ").unwrap_or((line, ""));
    let (name, rest) = sizes.split_once(' ').unwrap_or((sizes, ""));
    let mut sizes = Words { rest };
    match name {
        "drops" => take_all(alloc, DropCount::new(alloc, config(&mut sizes)?), steps),
        "part" => take_all(alloc, empty_part(alloc, &mut sizes)?, steps),
        "view" => take_all(alloc, tally(alloc, &mut sizes)?, steps),
        "union" => union(alloc, &mut sizes),
        "acks" => take_all(alloc, Acknowledged::new(&mut sizes)?, steps),
        "epoch" => take_all(alloc, Closing::new(alloc, &mut sizes)?, steps),
        "sequencers" => take_all(alloc, Sequencers::new(alloc, config(&mut sizes)?)?, steps),
        "sequencer" => take_all(alloc, Counting::new(&mut sizes)?, steps),
        _ => Ok(format!(in alloc; "{line}")?),
    }
}
