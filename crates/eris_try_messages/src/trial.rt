ghost use Rattle.std.specs.Prelude.{◌≡◌, true};
ghost use Rattle.eris_msg.specs.Spellings.{message_fits};

use eris_base::{NoMemory, Row};
use eris_msg::{DecodeFault, DecodeReason, Message, decode, encode};
use std::alloc::Global;

/// The message of the bytes, or why they are none.
pub(crate) fn show(alloc: Global, text: &str) -> anyhow::Result<String> {
    let bytes = hex::decode(alloc, text)?;
    match decode(alloc, bytes.as_slice()) {
        Ok(message) => Ok(format!(in alloc; "{message:?}")?),
        Err(fault) => Ok(format!(in alloc; "{fault}")?),
    }
}

/// What comes of the bytes, of their prefixes, and of each of them changed.
pub(crate) fn try_bytes(alloc: Global, text: &str) -> anyhow::Result<String> {
    let bytes = hex::decode(alloc, text)?;
    let kind = kind_of(alloc, bytes.as_slice());
    let len = bytes.len();
    let short = count_short(alloc, bytes.as_slice());
    let told = count_told(alloc, bytes.as_slice())?;
    Ok(format!(in alloc; "{kind}: {len} bytes, {short} short, {told} told")?)
}

/// The kind of the message that the bytes spell.
fn kind_of(alloc: Global, bytes: &[u8]) -> &'static str {
    match decode(alloc, bytes) {
        Ok(message) => name_of(&message),
        Err(_) => "no message",
    }
}

/// Whether the bytes are no message, or one that is spelled so.
fn is_right(alloc: Global, bytes: &[u8]) -> Result<bool, NoMemory> {
    match decode(alloc, bytes) {
        Ok(message) => is_spelled_so(alloc, &message, bytes),
        Err(DecodeFault::Bad { .. }) => Ok(true),
        Err(DecodeFault::NoMemory) => Err(NoMemory),
    }
}

fn is_spelled_so(alloc: Global, message: &Message, bytes: &[u8]) -> Result<bool, NoMemory>
    requires { message_fits message.now ≡ true }
{
    let spelling = encode(alloc, message)?;
    Ok(spelling.as_slice() == bytes)
}

fn count_short(alloc: Global, bytes: &[u8]) -> usize {
    let mut count: usize = 0;
    for at in 0..bytes.len() {
        if is_short(alloc, &bytes[..at]) {
            count = count.saturating_add(1);
        }
    }
    count
}

fn is_short(alloc: Global, bytes: &[u8]) -> bool {
    match decode(alloc, bytes) {
        Err(DecodeFault::Bad { at, reason }) => at == bytes.len() && reason == DecodeReason::Short,
        _ => false,
    }
}

fn count_told(alloc: Global, bytes: &[u8]) -> Result<usize, NoMemory> {
    let mut count: usize = 0;
    for at in 0..bytes.len() {
        for byte in [0, 1, 0x7f, 0xff] {
            if is_told(alloc, bytes, at, byte)? {
                count = count.saturating_add(1);
            }
        }
    }
    Ok(count)
}

/// Whether the bytes with the one at `at` changed are no message, or one that is spelled so.
fn is_told(alloc: Global, bytes: &[u8], at: usize, byte: u8) -> Result<bool, NoMemory> {
    let other = changed(alloc, bytes, at, byte)?;
    is_right(alloc, other.as_slice())
}

fn changed(alloc: Global, bytes: &[u8], at: usize, byte: u8) -> Result<Row<u8>, NoMemory> {
    let mut made = Row::new(alloc);
    for (place, old) in bytes.iter().enumerate() {
        made.push(if place == at { byte } else { *old })?;
    }
    Ok(made)
}

fn name_of(message: &Message) -> &'static str {
    match message {
        Message::Ask { .. } => "Ask",
        Message::Txn { .. } => "Txn",
        Message::Vouch { .. } => "Vouch",
        Message::Reply { .. } => "Reply",
        Message::Late { .. } => "Late",
        Message::Find { .. } => "Find",
        Message::Request { .. } => "Request",
        Message::Has { .. } => "Has",
        Message::TempDropped { .. } => "TempDropped",
        Message::Found { .. } => "Found",
        Message::Dropped { .. } => "Dropped",
        Message::ViewChange { .. } => "ViewChange",
        Message::StartView { .. } => "StartView",
        Message::SyncAsk { .. } => "SyncAsk",
        Message::Ack { .. } => "Ack",
        Message::Settled { .. } => "Settled",
        Message::NewEpoch { .. } => "NewEpoch",
        Message::EpochAsk { .. } => "EpochAsk",
        Message::EpochState { .. } => "EpochState",
        Message::StartEpoch { .. } => "StartEpoch",
    }
}
