ghost use Rattle.std.specs.Prelude.{◌≡◌, [], ◌∷◌, IfOk};

use crate::words::{count, txn_id, word};
use anyhow::{Context, bail};
use eris_audit::{OrderLine, Outcome};
use eris_base::{Epoch, NoMemory, Row, ShardId, Stamp};
use std::alloc::Global;

/// The line `TXN OUTCOME EPOCH SHARD:NUMBER SHARD:NUMBER ..`.
pub(crate) fn order_line(alloc: Global, text: &str) -> anyhow::Result<OrderLine> {
    let (head, places) = text.split_once(" at ").context("no places")?;
    Ok(OrderLine {
        id: txn_id(word(head, 0)?)?,
        outcome: outcome(word(head, 1)?)?,
        stamp: stamp(alloc, Epoch(count(head, 2)?), places)?,
    })
}

fn outcome(name: &str) -> anyhow::Result<Outcome> {
    match name {
        "Done" => Ok(Outcome::Done),
        "Committed" => Ok(Outcome::Committed),
        "Aborted" => Ok(Outcome::Aborted),
        "Pending" => Ok(Outcome::Pending),
        _ => bail!("no such outcome: {name}"),
    }
}

/// The stamp at these places.
fn stamp(alloc: Global, epoch: Epoch, text: &str) -> anyhow::Result<Stamp> {
    match text.rsplit_once(' ') {
        Some((others, last)) => joined(stamp_at(alloc, epoch, place(last)?)?, others),
        None => Ok(stamp_at(alloc, epoch, place(text)?)?),
    }
}

fn place(text: &str) -> anyhow::Result<(ShardId, u32)> {
    let (shard, number) = text.split_once(':').context("no place")?;
    Ok((ShardId(shard.parse::<u8>()?), number.parse::<u32>()?))
}

fn stamp_at(alloc: Global, epoch: Epoch, place: (ShardId, u32)) -> Result<Stamp, NoMemory> {
    Ok(Stamp {
        epoch,
        places: one(alloc, place)?,
    })
}

fn one<T: Drop>(alloc: Global, item: T) -> Result<Row<T>, NoMemory>
    ensures { IfOk result (λ items. items ≡ item ∷ []) }
{
    let mut items = Row::new(alloc);
    items.push(item)?;
    Ok(items)
}

/// The stamp with these places too, whose shards are lower.
fn joined(stamp: Stamp, text: &str) -> anyhow::Result<Stamp> {
    let mut stamp = stamp;
    for word in text.rsplit(' ') {
        put_front(&mut stamp, place(word)?)?;
    }
    Ok(stamp)
}

fn put_front(stamp: &mut Stamp, place: (ShardId, u32)) -> anyhow::Result<()> {
    match stamp.places.as_slice() {
        [(shard, _), ..] if place.0.0 < shard.0 => stamp.places.insert(0, place)?,
        _ => bail!("the shards of a stamp ascend"),
    }
    Ok(())
}
