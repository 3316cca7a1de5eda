use anyhow::{Context, bail};
use eris_base::{Row, ShardId};
use eris_txn::{Guard, How, Key, Name, Op, Plan, Setting, Txn};
use std::alloc::Global;

/// The independent transaction of these operations: `get K ; put K V`.
pub(crate) fn whole(alloc: Global, words: &str) -> anyhow::Result<Txn> {
    let mut ops = Row::new(alloc);
    for text in words.split(" ; ") {
        ops.push(op(text)?)?;
    }
    Ok(Txn::Whole(ops))
}

/// The general transaction of these clauses: `lock K K ; guard K N ; plus K N`.
pub(crate) fn general(alloc: Global, words: &str) -> anyhow::Result<Txn> {
    let mut keys = Row::new(alloc);
    let mut guards = Row::new(alloc);
    let mut settings = Row::new(alloc);
    for text in words.split(" ; ") {
        match text.split_once(' ') {
            Some(("lock", names)) => keys = locked(alloc, names)?,
            Some(("guard", said)) => guards.push(guard(said)?)?,
            Some((kind, said)) => settings.push(setting(kind, said)?)?,
            None => bail!("`{text}` is no clause"),
        }
    }
    Ok(Txn::General(Plan::new(alloc, keys, guards, settings)?))
}

pub(crate) fn key(text: &str) -> anyhow::Result<Key> {
    let (shard, name) = text.split_once('/').context("a key without a shard")?;
    Ok(Key {
        shard: ShardId(shard.parse::<u8>()?),
        name: Name::new(name.as_bytes()).context("a name")?,
    })
}

fn op(text: &str) -> anyhow::Result<Op> {
    match text.split_once(' ') {
        Some(("get", name)) => Ok(Op::Get(key(name)?)),
        Some(("del", name)) => Ok(Op::Del(key(name)?)),
        Some(("put", said)) => {
            let (key, value) = with_number(said)?;
            Ok(Op::Put(key, value))
        }
        Some(("add", said)) => {
            let (key, more) = with_number(said)?;
            Ok(Op::Add(key, more))
        }
        _ => bail!("`{text}` is no operation"),
    }
}

fn locked(alloc: Global, names: &str) -> anyhow::Result<Row<Key>> {
    let mut keys = Row::new(alloc);
    for name in names.split(' ') {
        keys.push(key(name)?)?;
    }
    Ok(keys)
}

fn guard(said: &str) -> anyhow::Result<Guard> {
    let (key, least) = with_number(said)?;
    Ok(Guard { key, least })
}

fn setting(kind: &str, said: &str) -> anyhow::Result<Setting> {
    let (key, number) = with_number(said)?;
    Ok(Setting {
        key,
        how: how(kind, number)?,
    })
}

fn how(kind: &str, number: u64) -> anyhow::Result<How> {
    match kind {
        "set" => Ok(How::Put(number)),
        "plus" => Ok(How::Plus(number)),
        "minus" => Ok(How::Minus(number)),
        _ => bail!("`{kind}` is no clause"),
    }
}

/// A key and a number: `K N`.
fn with_number(words: &str) -> anyhow::Result<(Key, u64)> {
    let (name, number) = words.split_once(' ').context("a key without a number")?;
    Ok((key(name)?, number.parse::<u64>()?))
}
