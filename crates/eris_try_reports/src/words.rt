use anyhow::Context;
use eris_base::{ClientId, TxnId};

/// The word with this number, counted from 0.
pub(crate) fn word(text: &str, at: usize) -> anyhow::Result<&str> {
    text.split(' ').nth(at).context("a word is missing")
}

/// The number that this word is.
pub(crate) fn count(text: &str, at: usize) -> anyhow::Result<u32> {
    Ok(word(text, at)?.parse::<u32>()?)
}

/// The number of a shard, a replica or a client that this word is.
pub(crate) fn name(text: &str, at: usize) -> anyhow::Result<u8> {
    Ok(word(text, at)?.parse::<u8>()?)
}

/// The transaction `CLIENT.NUMBER`.
pub(crate) fn txn_id(text: &str) -> anyhow::Result<TxnId> {
    let (client, number) = text.split_once('.').context("no transaction")?;
    Ok(TxnId {
        client: ClientId(client.parse::<u8>()?),
        number: number.parse::<u32>()?,
    })
}
