ghost use Rattle.std.specs.Prelude.{◌≡◌, ◌<◌, ◌≤◌, ◌+◌, ◌-◌, ◌++◌, [], length, get_or, take, drop, IfOk, OnOk, OnErr, Ok, Err, ◌==◌, ◌&&◌, if◌then◌else◌};
ghost use Rattle.std.specs.Option.{IfSome};
ghost use Rattle.eris_frame.specs.Frames.{is_long, length_told, frame_end, kept, Tells, IsCut, PiecesJoin};

use crate::framing::{FrameFault, LONGEST};
use eris_base::{NoMemory, Row};
use std::alloc::Global;
use std::marker::Model;

/// Takes a stream in pieces and gives its messages. Contracts see what it keeps: what has come since the
/// last whole frame or, of a length above 67,108,860, its four bytes.
#[derive(Debug, Drop)]
pub struct FrameFeed {
    alloc: Global,
    rest: Row<u8>,
}

impl Model for FrameFeed {
    ghost use Rattle.std.specs.Prelude.{◌≡◌, List, ℕ};
    ghost use Rattle.eris_frame.specs.Frames.{kept};

    ghost Value = { List ℕ };

    ghost view = { λ feed. feed.rest };

    ghost invariant = { λ feed. kept feed.rest ≡ feed.rest };
}

impl FrameFeed {
    /// The feed of a stream of which nothing has come. It takes no memory.
    #[tactic(auto, using(crate::proofs::Streams::empty_kept))]
    pub fn new(alloc: Global) -> FrameFeed
        ensures { result ≡ [] }
    {
        FrameFeed {
            alloc,
            rest: Row::new(alloc),
        }
    }

    /// The messages that this piece completes, in order, before any length above the limit.
    ///
    /// # Errors
    ///
    /// `Long` exactly where a length above 67,108,860 came in an earlier piece, or comes in this one and
    /// this one completed no message before it. From the piece after such a length on it is always
    /// answered. After `NoMemory` the feed is as before.
    pub fn feed(&mut self, piece: &[u8]) -> Result<Row<Row<u8>>, FrameFault>
        ensures { Tells result self.old piece.now self.new }
    {
        if is_long(self.rest.as_slice()) {
            return Err(FrameFault::Long);
        }
        let cut = cut_frames(self.alloc, self.rest.as_slice(), piece)?;
        let long = is_long_from(self.rest.as_slice(), piece, cut.at);
        keep(self.alloc, &mut self.rest, piece, cut.at, long)?;
        told(long, cut.messages)
    }
}

/// What is told of a piece after which a length above the limit stands next, or none does.
fn told(long: bool, messages: Row<Row<u8>>) -> Result<Row<Row<u8>>, FrameFault>
    ensures { result ≡ (if long && (length messages == 0) then Err FrameFault.Long else Ok messages) }
{
    if long && messages.is_empty() {
        return Err(FrameFault::Long);
    }
    Ok(messages)
}

/// However a stream is cut into pieces, the messages that a new feed answers to them are those whose
/// whole frames stand in the joined pieces before the first length above the limit. A piece for which
/// memory ran out is not one of the stream.
#[tactic(auto, using(crate::proofs::Streams::pieces_join))]
pub fn pieces_join()
    ensures { PiecesJoin }
{}

/// The messages of a stream's whole frames, and where the last of these ends.
#[derive(Drop)]
struct Cut {
    messages: Row<Row<u8>>,
    at: usize,
}

/// Cuts the whole frames off two parts of a stream, joined.
fn cut_frames(alloc: Global, front: &[u8], piece: &[u8]) -> Result<Cut, NoMemory>
    ensures { IfOk result (λ cut. IsCut (front.now ++ piece.now) cut.messages cut.at) }
{
    let mut messages = Row::new(alloc);
    let mut at = 0;
    loop {
        match frame_end(front, piece, at) {
            None => return Ok(Cut { messages, at }),
            Some(end) => {
                messages.push(window_of(alloc, front, piece, at + 4, end - (at + 4))?)?;
                at = end;
            }
        }
    }
}

/// Where the whole frame ends that begins at this place. None exactly where none does.
#[tactic(auto, unfolding(crate::specs::Frames::frame_end))]
fn frame_end(front: &[u8], piece: &[u8], at: usize) -> Option<usize>
    requires { at ≤ length (front.now ++ piece.now) }
    ensures exact { result ≡ frame_end (front.now ++ piece.now) at }
    ensures after { IfSome result (λ end. at + 4 ≤ end) }
{
    let len = length_at(front, piece, at)? as usize;
    let left = front.len() + piece.len() - at;
    if len > LONGEST || left - 4 < len {
        return None;
    }
    Some(at + 4 + len)
}

/// The length that stands at this place, where all of its four bytes are there.
#[tactic(auto, using(crate::proofs::FrameLaws::told_none, crate::proofs::FrameLaws::told_some))]
fn length_at(front: &[u8], piece: &[u8], at: usize) -> Option<u32>
    requires { at ≤ length (front.now ++ piece.now) }
    ensures told { result ≡ length_told (drop at (front.now ++ piece.now)) }
    ensures four { IfSome result (λ _. at + 4 ≤ length (front.now ++ piece.now)) }
{
    if front.len() + piece.len() - at < 4 {
        return None;
    }
    Some(u32::from_be_bytes([
        byte_at(front, piece, at),
        byte_at(front, piece, at + 1),
        byte_at(front, piece, at + 2),
        byte_at(front, piece, at + 3),
    ]))
}

fn byte_at(front: &[u8], piece: &[u8], at: usize) -> u8
    requires { at < length (front.now ++ piece.now) }
    ensures { result ≡ get_or (front.now ++ piece.now) at 0 }
{
    if at < front.len() {
        front[at]
    } else {
        piece[at - front.len()]
    }
}

/// Whether a length above the limit stands at this place.
#[tactic(auto, unfolding(crate::specs::Frames::is_long))]
fn is_long_from(front: &[u8], piece: &[u8], at: usize) -> bool
    requires { at ≤ length (front.now ++ piece.now) }
    ensures { result ≡ is_long (drop at (front.now ++ piece.now)) }
{
    match length_at(front, piece, at) {
        None => false,
        Some(len) => len as usize > LONGEST,
    }
}

/// Whether a length above the limit stands at the front.
fn is_long(bytes: &[u8]) -> bool
    ensures { result ≡ is_long bytes.now }
{
    is_long_from(bytes, &[], 0)
}

/// Keeps what a feed keeps of the bytes from this place on. A piece that completes no message is added to
/// what was kept.
#[tactic(auto, using(crate::proofs::Streams::kept_start, crate::proofs::Streams::kept_long, crate::proofs::Streams::kept_short))]
fn keep(
    alloc: Global,
    rest: &mut Row<u8>,
    piece: &[u8],
    at: usize,
    long: bool,
) -> Result<(), NoMemory>
    requires within { at ≤ length (rest.old ++ piece.now) }
    requires long { long ≡ is_long (drop at (rest.old ++ piece.now)) }
    ensures ok { OnOk result (rest.new ≡ kept (drop at (rest.old ++ piece.now))) }
    ensures err { OnErr result (rest.new ≡ rest.old) }
{
    if at == 0 && !long {
        return rest.append(piece);
    }
    let next = rest_from(alloc, rest.as_slice(), piece, at, long)?;
    *rest = next;
    Ok(())
}

/// What a feed keeps of the bytes from this place on.
#[tactic(auto, using(crate::proofs::Streams::kept_long, crate::proofs::Streams::kept_short, crate::proofs::Windows::rest_whole))]
fn rest_from(
    alloc: Global,
    front: &[u8],
    piece: &[u8],
    at: usize,
    long: bool,
) -> Result<Row<u8>, NoMemory>
    requires within { at ≤ length (front.now ++ piece.now) }
    requires long { long ≡ is_long (drop at (front.now ++ piece.now)) }
    ensures { IfOk result (λ rest. rest ≡ kept (drop at (front.now ++ piece.now))) }
{
    if long {
        return window_of(alloc, front, piece, at, 4);
    }
    window_of(alloc, front, piece, at, front.len() + piece.len() - at)
}

/// So many bytes of two parts, joined, from this place on, or as many as there are.
#[tactic(auto, using(crate::proofs::Windows::part_of_joined))]
fn window_of(
    alloc: Global,
    front: &[u8],
    piece: &[u8],
    from: usize,
    count: usize,
) -> Result<Row<u8>, NoMemory>
    ensures { IfOk result (λ bytes. bytes ≡ take count (drop from (front.now ++ piece.now))) }
{
    let mut bytes = Row::new(alloc);
    bytes.append(window(front, from, count))?;
    let more = count.saturating_sub(front.len().saturating_sub(from));
    bytes.append(window(piece, from.saturating_sub(front.len()), more))?;
    Ok(bytes)
}

/// So many bytes from this place on, or as many as there are.
#[tactic(auto, using(crate::proofs::Windows::window_is))]
fn window(bytes: &[u8], from: usize, count: usize) -> &[u8]
    ensures { result.now ≡ take count (drop from bytes.now) }
{
    let rest = &bytes[from.min(bytes.len())..];
    &rest[..count.min(rest.len())]
}
