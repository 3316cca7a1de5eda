use crate::receiving::Receiving;
use eris_msg::{Message, decode};
use std::alloc::Global;

/// What is told of the last of the words, once the node got them all in their order.
pub(crate) fn hand_all<N: Receiving>(
    alloc: Global,
    node: N,
    words: &str,
) -> anyhow::Result<String> {
    let mut node = node;
    let mut told = String::new(alloc);
    for word in words.split(' ') {
        told = hand(alloc, &mut node, word)?;
    }
    Ok(told)
}

/// What the node's calls tell for `?`; else what happened, how much came out, and whether the node is the same.
fn hand<N: Receiving>(alloc: Global, node: &mut N, word: &str) -> anyhow::Result<String> {
    if word == "?" {
        return node.told(alloc);
    }
    let before = format!(in alloc; "{node:?}")?;
    let happened = happen(alloc, node, word)?;
    let after = format!(in alloc; "{node:?}")?;
    let state = if before == after {
        "the same"
    } else {
        "changed"
    };
    Ok(format!(in alloc; "{happened} out, {state}")?)
}

/// Lets the node take the step of this name, else the message of these digits. What it was, and how much came out.
fn happen<N: Receiving>(alloc: Global, node: &mut N, word: &str) -> anyhow::Result<String> {
    if let Some(out) = node.act(word)? {
        return Ok(format!(in alloc; "{word}: {out}")?);
    }
    let bytes = hex::decode(alloc, word)?;
    let kind = kind_of(alloc, bytes.as_slice())?;
    let out = node.take(alloc, bytes.as_slice())?;
    Ok(format!(in alloc; "{kind}: {out}")?)
}

/// The name of the message's kind.
fn kind_of(alloc: Global, bytes: &[u8]) -> anyhow::Result<String> {
    match decode(alloc, bytes) {
        Ok(message) => name_of(alloc, &message),
        Err(fault) => Err(fault.into()),
    }
}

/// The first word of what is shown of the message.
fn name_of(alloc: Global, message: &Message) -> anyhow::Result<String> {
    let shown = format!(in alloc; "{message:?}")?;
    let (kind, _) = shown.as_str().split_once(' ').unwrap_or(("", ""));
    Ok(format!(in alloc; "{kind}")?)
}
