ghost use Rattle.std.specs.Prelude.{◌≡◌, IfOk};

use crate::steps::{Words, say};
use anyhow::bail;
use eris_base::{ClientId, Config, Epoch, NoMemory, Place, Row, ShardId, Stamp, TxnId};
use eris_log::Part;
use eris_txn::{Body, Packet};
use std::alloc::Global;

/// The system of `SHARDS F`, with two clients.
pub(crate) fn config(words: &mut Words<'_>) -> anyhow::Result<Config> {
    Ok(Config::new(words.next()?, words.next()?, 2)?)
}

/// The place of `SHARD.NUMBER` in this epoch.
pub(crate) fn place(epoch: Epoch, words: &mut Words<'_>) -> anyhow::Result<Place>
    ensures { IfOk result (λ place. place.epoch ≡ epoch) }
{
    Ok(Place {
        epoch,
        shard: ShardId(words.next()?),
        number: words.number()?,
    })
}

/// The packet of `CLIENT.OWN.OTHER`, stamped in this epoch.
pub(crate) fn packet(alloc: Global, epoch: Epoch, words: &mut Words<'_>) -> anyhow::Result<Packet> {
    let client = ClientId(words.next()?);
    Ok(Packet {
        stamp: stamp(alloc, epoch, words.number()?, words.number()?)?,
        id: TxnId { client, number: 1 },
        asker: client,
        body: Body::Abort(Row::new(alloc)),
    })
}

fn stamp(alloc: Global, epoch: Epoch, own: u32, other: u32) -> Result<Stamp, NoMemory> {
    let mut places = Row::new(alloc);
    if own == 0 {
        places.push((ShardId(1), other))?;
        return Ok(Stamp { epoch, places });
    }
    places.push((ShardId(0), own))?;
    if other > 0 {
        places.push((ShardId(1), other))?;
    }
    Ok(Stamp { epoch, places })
}

/// The part of the shard in this epoch that holds the packets of these words.
pub(crate) fn part(
    alloc: Global,
    epoch: Epoch,
    shard: ShardId,
    words: &Words<'_>,
) -> anyhow::Result<Part> {
    let mut part = Part::new(alloc, epoch, shard);
    for rest in words.rest.split_whitespace() {
        hold(&mut part, packet(alloc, epoch, &mut Words { rest })?)?;
    }
    Ok(part)
}

pub(crate) fn hold(part: &mut Part, packet: Packet) -> anyhow::Result<()> {
    if packet.stamp.epoch != part.epoch() || packet.stamp.number_of(part.shard()).is_none() {
        bail!("a packet of another shard");
    }
    part.hold(packet)?;
    Ok(())
}

/// Tells the clients of the packets, in their order.
pub(crate) fn tell_clients(
    alloc: Global,
    told: &mut String,
    packets: &[Packet],
) -> anyhow::Result<()> {
    say(told, "of")?;
    for packet in packets {
        let one = format!(in alloc; " {}", packet.id.client.0)?;
        told.push_str(one.as_str())?;
    }
    Ok(())
}
