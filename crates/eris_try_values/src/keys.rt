use anyhow::Context;
use eris_base::{Row, ShardId};
use eris_txn::{Key, Name};
use std::alloc::Global;

pub(crate) fn name(alloc: Global, text: &str) -> anyhow::Result<String> {
    match Name::new(text.as_bytes()) {
        Some(name) => Ok(format!(in alloc; "{}", str::from_utf8(name.bytes())?)?),
        None => Ok(format!(in alloc; "no name")?),
    }
}

pub(crate) fn compared(alloc: Global, words: &str) -> anyhow::Result<String> {
    let (one, other) = two(words)?;
    let (one, other) = (key(one)?, key(other)?);
    let (less, greater) = (one < other, one > other);
    Ok(format!(in alloc; "{less} {greater} {}", one.is_same(&other))?)
}

pub(crate) fn two(words: &str) -> anyhow::Result<(&str, &str)> {
    words.split_once(' ').context("not two words")
}

pub(crate) fn key(text: &str) -> anyhow::Result<Key> {
    let (shard, name) = text.split_once('/').context("no key")?;
    Ok(Key {
        shard: ShardId(shard.parse::<u8>()?),
        name: Name::new(name.as_bytes()).context("no name")?,
    })
}

pub(crate) fn keys(alloc: Global, words: &str) -> anyhow::Result<Row<Key>> {
    let mut keys = Row::new(alloc);
    for word in words.split(' ') {
        keys.push(key(word)?)?;
    }
    Ok(keys)
}

pub(crate) fn value(word: &str) -> anyhow::Result<Option<u64>> {
    match word {
        "-" => Ok(None),
        _ => Ok(Some(word.parse::<u64>()?)),
    }
}
