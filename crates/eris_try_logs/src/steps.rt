use anyhow::{Context, bail, ensure};
use eris_base::{ClientId, Epoch, Place, Row, ShardId, Stamp, TxnId};
use eris_log::Part;
use eris_txn::{Body, Key, Name, Op, Packet};
use std::alloc::Global;

/// Tells the part each of the steps, in their order.
pub(crate) fn take_all(alloc: Global, part: &mut Part, steps: &str) -> anyhow::Result<()> {
    for step in steps.split(" ; ") {
        take(alloc, part, step)?;
    }
    Ok(())
}

fn take(alloc: Global, part: &mut Part, step: &str) -> anyhow::Result<()> {
    match step.split_once(' ') {
        Some(("hold", text)) => hold(part, packet(alloc, text)?),
        Some(("temp", text)) => mark_temp(part, place(text)?),
        Some(("found", text)) => mark_found(part, &stamp(alloc, text)?),
        Some(("dropped", text)) => mark_dropped(part, place(text)?),
        _ => bail!("`{step}` is no step"),
    }
}

fn hold(part: &mut Part, packet: Packet) -> anyhow::Result<()> {
    ensure!(packet.stamp.epoch == part.epoch(), "another epoch");
    ensure!(
        packet.stamp.number_of(part.shard()).is_some(),
        "another shard"
    );
    Ok(part.hold(packet)?)
}

fn mark_temp(part: &mut Part, place: Place) -> anyhow::Result<()> {
    ensure!(place.epoch == part.epoch(), "another epoch");
    Ok(part.mark_temp(place)?)
}

fn mark_found(part: &mut Part, stamp: &Stamp) -> anyhow::Result<()> {
    ensure!(stamp.epoch == part.epoch(), "another epoch");
    Ok(part.mark_found(stamp)?)
}

fn mark_dropped(part: &mut Part, place: Place) -> anyhow::Result<()> {
    ensure!(place.epoch == part.epoch(), "another epoch");
    Ok(part.mark_dropped(place)?)
}

/// The place `S:N` of epoch 5.
pub(crate) fn place(text: &str) -> anyhow::Result<Place> {
    let (shard, number) = text.split_once(':').context("a place")?;
    Ok(Place {
        epoch: Epoch(5),
        shard: ShardId(shard.parse::<u8>()?),
        number: number.parse::<u32>()?,
    })
}

/// The stamp `0:N` or `0:N 1:M` of epoch 5.
fn stamp(alloc: Global, text: &str) -> anyhow::Result<Stamp> {
    let mut places = Row::new(alloc);
    match text.split_once(' ') {
        Some((own, other)) => {
            places.push((ShardId(0), number(own, "0:")?))?;
            places.push((ShardId(1), number(other, "1:")?))?;
        }
        None => places.push((ShardId(0), number(text, "0:")?))?,
    }
    Ok(Stamp {
        epoch: Epoch(5),
        places,
    })
}

/// The number behind the shard's.
fn number(text: &str, shard: &str) -> anyhow::Result<u32> {
    let number = text.strip_prefix(shard).context("another shard")?;
    Ok(number.parse::<u32>()?)
}

/// The packet `C STAMP`: the first transaction of client C, which reads a key of shard 0.
fn packet(alloc: Global, text: &str) -> anyhow::Result<Packet> {
    let (client, places) = text.split_once(' ').context("a packet without a stamp")?;
    let client = ClientId(client.parse::<u8>()?);
    let body = body(alloc)?;
    Ok(Packet {
        stamp: stamp(alloc, places)?,
        id: TxnId { client, number: 1 },
        asker: client,
        body,
    })
}

fn body(alloc: Global) -> anyhow::Result<Body> {
    let mut ops = Row::new(alloc);
    ops.push(Op::Get(Key {
        shard: ShardId(0),
        name: Name::new(b"a").context("a name")?,
    }))?;
    Ok(Body::Independent(ops))
}
