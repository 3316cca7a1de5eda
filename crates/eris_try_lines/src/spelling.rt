use anyhow::Context;
use eris_base::Row;
use eris_words::{Reason, append_decimal, read_number};
use std::alloc::Global;

/// Every reason for which a line is refused.
static REASONS: [Reason; 19] = [
    Reason::Header,
    Reason::Word,
    Reason::Number,
    Reason::Key,
    Reason::Hex,
    Reason::End,
    Reason::TooMany,
    Reason::RepeatedKey,
    Reason::UnlockedKey,
    Reason::NoSuchClient,
    Reason::NoSuchShard,
    Reason::NoSuchTxn,
    Reason::OwnTxn,
    Reason::NotGeneral,
    Reason::NoSuchPacket,
    Reason::NoSuchSequencer,
    Reason::NoSuchReplica,
    Reason::Crashed,
    Reason::IsMessage,
];

/// The number up to the limit that the word of `LIMIT WORD` writes.
pub(crate) fn number(alloc: Global, text: &str) -> anyhow::Result<String> {
    let (limit, word) = text.split_once(' ').context("no limit")?;
    match read_number(word.as_bytes(), limit.parse::<u64>()?) {
        Some(number) => Ok(format!(in alloc; "{number}")?),
        None => Ok(format!(in alloc; "no number")?),
    }
}

/// The digits of all the numbers, one after the other.
pub(crate) fn decimals(alloc: Global, text: &str) -> anyhow::Result<String> {
    let mut digits = Row::new(alloc);
    for word in text.split(' ') {
        append_decimal(&mut digits, word.parse::<u64>()?)?;
    }
    Ok(String::from_str(alloc, str::from_utf8(digits.as_slice())?)?)
}

/// The name of each reason.
pub(crate) fn reasons(alloc: Global) -> anyhow::Result<String> {
    let mut names = String::new(alloc);
    for reason in &REASONS {
        if !names.is_empty() {
            names.push(' ')?;
        }
        names.push_str(reason.name())?;
    }
    Ok(names)
}
