use crate::packets::{config, packet, part, place, tell_clients};
use crate::steps::{Stepping, Words, say, yes_or_no};
use anyhow::bail;
use eris_base::{Epoch, Place, ReplicaId, Row, ShardId};
use eris_epoch::{EpochTally, shard_log};
use eris_txn::Packet;
use std::alloc::Global;

/// What the coordinator has of the way into an epoch: the noted parts, the packets that were found,
/// and the places that were dropped for good.
#[derive(Drop)]
pub(crate) struct Closing {
    tally: EpochTally,
    found: Row<Packet>,
    dropped: Row<Place>,
}

impl Closing {
    /// That of `TARGET SHARDS F`.
    pub(crate) fn new(alloc: Global, words: &mut Words<'_>) -> anyhow::Result<Closing> {
        let target = Epoch(words.number()?);
        Ok(Closing {
            tally: EpochTally::new(alloc, target, config(words)?),
            found: Row::new(alloc),
            dropped: Row::new(alloc),
        })
    }
}

impl Stepping for Closing {
    fn take(
        &mut self,
        alloc: Global,
        told: &mut String,
        name: &str,
        words: &mut Words<'_>,
    ) -> anyhow::Result<()> {
        match name {
            "ready" => say(told, yes_or_no(self.tally.ready())),
            "close" => close(alloc, told, self, Epoch(words.number()?)),
            "shard" => log(alloc, told, self.found.as_slice(), ShardId(words.next()?)),
            _ => add(alloc, self, name, Epoch(words.number()?), words),
        }
    }
}

fn close(alloc: Global, told: &mut String, closing: &Closing, last: Epoch) -> anyhow::Result<()> {
    let found = closing.found.as_slice();
    let dropped = closing.dropped.as_slice();
    let closed = closing.tally.close(last, found, dropped)?;
    tell_clients(alloc, told, closed.as_slice())
}

fn log(alloc: Global, told: &mut String, packets: &[Packet], shard: ShardId) -> anyhow::Result<()> {
    let log = shard_log(alloc, packets, shard)?;
    tell_clients(alloc, told, log.as_slice())
}

fn add(
    alloc: Global,
    closing: &mut Closing,
    name: &str,
    epoch: Epoch,
    words: &mut Words<'_>,
) -> anyhow::Result<()> {
    match name {
        "part" => note(alloc, &mut closing.tally, epoch, words),
        "found" => Ok(closing.found.push(packet(alloc, epoch, words)?)?),
        "dropped" => Ok(closing.dropped.push(place(epoch, words)?)?),
        _ => bail!("a step of an epoch"),
    }
}

fn note(
    alloc: Global,
    tally: &mut EpochTally,
    epoch: Epoch,
    words: &mut Words<'_>,
) -> anyhow::Result<()> {
    let shard = ShardId(words.next()?);
    let replica = ReplicaId(words.next()?);
    tally.note(replica, part(alloc, epoch, shard, words)?)?;
    Ok(())
}
