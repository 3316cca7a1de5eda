use eris_base::{NoMemory, Row};
use eris_msg::{FrameFault, FrameFeed, pieces_join, put_frame};
use std::alloc::Global;

/// The digits of the frame of a message of these bytes.
pub(crate) fn frame(alloc: Global, text: &str) -> anyhow::Result<String> {
    let bytes = hex::decode(alloc, text)?;
    let frame = framed(alloc, bytes.as_slice())?;
    Ok(hex::encode(alloc, frame.as_slice())?)
}

/// In how many of the ways to cut the message's frame in two a stream gives exactly the message.
pub(crate) fn halves(alloc: Global, text: &str) -> anyhow::Result<String> {
    pieces_join();
    let bytes = hex::decode(alloc, text)?;
    let frame = framed(alloc, bytes.as_slice())?;
    let whole = count_whole(alloc, frame.as_slice(), bytes.as_slice())?;
    let ways = frame.len().saturating_add(1);
    Ok(format!(in alloc; "whole in {whole} of {ways} ways")?)
}

/// How many messages, or which fault, a new stream gives to each of the pieces.
pub(crate) fn feed(alloc: Global, pieces: &str) -> anyhow::Result<String> {
    let mut feed = FrameFeed::new(alloc);
    let mut told = String::new(alloc);
    for text in pieces.split(' ') {
        let piece = hex::decode(alloc, text)?;
        let one = fed(alloc, &mut feed, piece.as_slice())?;
        told.push_str(one.as_str())?;
    }
    Ok(told)
}

fn framed(alloc: Global, message: &[u8]) -> Result<Row<u8>, FrameFault> {
    let mut frame = Row::new(alloc);
    put_frame(alloc, &mut frame, message)?;
    Ok(frame)
}

fn count_whole(alloc: Global, frame: &[u8], message: &[u8]) -> Result<usize, FrameFault> {
    let mut count: usize = 0;
    for at in 0..=frame.len() {
        if is_whole(alloc, &frame[..at], &frame[at..], message)? {
            count = count.saturating_add(1);
        }
    }
    Ok(count)
}

fn is_whole(alloc: Global, front: &[u8], rest: &[u8], message: &[u8]) -> Result<bool, FrameFault> {
    let mut feed = FrameFeed::new(alloc);
    let first = feed.feed(front)?;
    let second = feed.feed(rest)?;
    let came_first = is_only(first.as_slice(), message) && second.is_empty();
    let came_second = first.is_empty() && is_only(second.as_slice(), message);
    Ok(came_first || came_second)
}

/// Whether there is just this message.
fn is_only(messages: &[Row<u8>], message: &[u8]) -> bool {
    match messages {
        [one] => one.as_slice() == message,
        _ => false,
    }
}

fn fed(alloc: Global, feed: &mut FrameFeed, piece: &[u8]) -> anyhow::Result<String> {
    match feed.feed(piece) {
        Ok(messages) => Ok(format!(in alloc; "[{}]", messages.len())?),
        Err(FrameFault::NoMemory) => Err(NoMemory.into()),
        Err(FrameFault::Long) => Ok(format!(in alloc; "[too long]")?),
    }
}
