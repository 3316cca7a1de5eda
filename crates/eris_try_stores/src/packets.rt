ghost use Rattle.std.specs.Prelude.{◌≡◌, [], ◌∷◌, IfOk};

use anyhow::{Context, bail};
use eris_base::{ClientId, Epoch, NoMemory, Row, ShardId, Stamp, TxnId};
use eris_txn::{Body, Key, Lock, Mode, Name, Op, Packet, Write};
use std::alloc::Global;

/// The packet `NUMBER@PLACE for ASKER: BODY`.
pub(crate) fn packet(alloc: Global, text: &str) -> anyhow::Result<Packet> {
    let (head, said) = text.split_once(": ").context("no body")?;
    let (name, asker) = head.split_once(" for ").context("no asker")?;
    let (number, place) = name.split_once('@').context("no place")?;
    Ok(Packet {
        stamp: stamp(alloc, place.parse::<u32>()?)?,
        id: id(number)?,
        asker: ClientId(asker.parse::<u8>()?),
        body: body(alloc, said)?,
    })
}

/// The transaction of client 0 with this number.
pub(crate) fn id(number: &str) -> anyhow::Result<TxnId> {
    Ok(TxnId {
        client: ClientId(0),
        number: number.parse::<u32>()?,
    })
}

/// A key, as a script writes it.
pub(crate) fn key(text: &str) -> anyhow::Result<Key> {
    let (shard, name) = text.split_once('/').context("no key")?;
    Ok(Key {
        shard: ShardId(shard.parse::<u8>()?),
        name: Name::new(name.as_bytes()).context("no name")?,
    })
}

/// The stamp that names shard 0 alone.
fn stamp(alloc: Global, place: u32) -> Result<Stamp, NoMemory> {
    Ok(Stamp {
        epoch: Epoch(0),
        places: one(alloc, (ShardId(0), place))?,
    })
}

fn one<T: Drop>(alloc: Global, item: T) -> Result<Row<T>, NoMemory>
    ensures { IfOk result (λ items. items ≡ item ∷ []) }
{
    let mut items = Row::new(alloc);
    items.push(item)?;
    Ok(items)
}

fn body(alloc: Global, text: &str) -> anyhow::Result<Body> {
    match text.split_once(' ') {
        Some(("lock", said)) => Ok(Body::Prelim(locks(alloc, said, Mode::Exclusive)?)),
        Some(("share", said)) => Ok(Body::Prelim(locks(alloc, said, Mode::Shared)?)),
        Some(("commit", said)) => commit(alloc, said),
        Some(("abort", said)) => Ok(Body::Abort(keys(alloc, said)?)),
        Some((word, said)) => Ok(Body::Independent(one(alloc, op(word, said)?)?)),
        None => bail!("no body: {text}"),
    }
}

fn op(word: &str, text: &str) -> anyhow::Result<Op> {
    match word {
        "get" => Ok(Op::Get(key(text)?)),
        "del" => Ok(Op::Del(key(text)?)),
        "put" => Ok(put(key_and_value(text)?)),
        "add" => Ok(add(key_and_value(text)?)),
        _ => bail!("no such body: {word}"),
    }
}

fn put((key, value): (Key, u64)) -> Op {
    Op::Put(key, value)
}

fn add((key, value): (Key, u64)) -> Op {
    Op::Add(key, value)
}

fn key_and_value(text: &str) -> anyhow::Result<(Key, u64)> {
    let (name, value) = text.split_once(' ').context("no value")?;
    Ok((key(name)?, value.parse::<u64>()?))
}

fn locks(alloc: Global, text: &str, mode: Mode) -> anyhow::Result<Row<Lock>> {
    let mut locks = Row::new(alloc);
    for word in text.split(' ') {
        locks.push(Lock {
            key: key(word)?,
            mode,
        })?;
    }
    Ok(locks)
}

fn keys(alloc: Global, text: &str) -> anyhow::Result<Row<Key>> {
    let mut keys = Row::new(alloc);
    for word in text.split(' ') {
        keys.push(key(word)?)?;
    }
    Ok(keys)
}

fn commit(alloc: Global, text: &str) -> anyhow::Result<Body> {
    match text.split_once(" ; ") {
        Some((freed, settings)) => Ok(Body::Commit(keys(alloc, freed)?, writes(alloc, settings)?)),
        None => Ok(Body::Commit(keys(alloc, text)?, Row::new(alloc))),
    }
}

fn writes(alloc: Global, text: &str) -> anyhow::Result<Row<Write>> {
    let mut writes = Row::new(alloc);
    for clause in text.split(" ; ") {
        let setting = clause.strip_prefix("set ").context("no write")?;
        let (key, value) = key_and_value(setting)?;
        writes.push(Write { key, value })?;
    }
    Ok(writes)
}
