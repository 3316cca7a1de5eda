ghost use Rattle.std.specs.Prelude.{◌≡◌, ◌<◌, ◌≤◌, ◌+◌, ◌++◌, ◌∷◌, [], List, None, Some, length, slice_get, option_map, OnOk, IfOk, IfErr, true, drop};
ghost use Rattle.eris_in_place.specs.MessageRanges.{MessageFits, SendsFit};
ghost use Rattle.eris_msg.specs.Spellings.{IsSpelling, message_fits, spelling};
ghost use Rattle.eris_msg.specs.declared.outgoing.Outgoing.{Outgoing};
ghost use Rattle.eris_rules.specs.Refusals.{frame_sizes, limit_met};
ghost use Rattle.eris_frame.specs.Frames.{frame};
ghost use Rattle.eris_network.specs.KeptFrames.{IsKept, outgoing_of, frame_in, addressee_in};
ghost use Rattle.eris_network.specs.Limits.{AreCountsOf, IsMetBy, IsTooLong, IsTooLongSpelled, IsTooMuch, byte_limit, packet_limit};
ghost use Rattle.eris_network.specs.Networks.{IsSpelledBy, frame_at};

use crate::counted::is_counted;
use crate::kept::Kept;
use crate::send_fault::SendFault;
use crate::sent_counts::SentCounts;
use eris_base::{NoMemory, Node, Row};
use eris_msg::{DecodeFault, FrameFault, Message, Outgoing, decode, encode, put_frame};
use std::alloc::Global;
use std::marker::Model;

/// How many packets may be sent.
pub const PACKET_LIMIT: usize = 262_144;

/// How many bytes the frames of the sent packets may have.
pub const BYTE_LIMIT: usize = 67_108_864;

/// The frames of messages, in order, with the number of their bytes. Contracts see the list of the messages.
#[derive(Debug, Drop)]
pub struct Frames {
    alloc: Global,
    kept: Row<Kept>,
    bytes: usize,
}

impl Model for Frames {
    ghost use Rattle.std.specs.Prelude.{List};
    ghost use Rattle.eris_msg.specs.declared.outgoing.Outgoing.{Outgoing};
    ghost use Rattle.eris_network.specs.KeptFrames.{AreFrames, sent_of};

    ghost Value = { List Outgoing };

    ghost view = { λ f. sent_of f.kept };

    ghost invariant = { λ f. AreFrames f.kept f.bytes };
}

impl Frames {
    /// No message. It takes no memory.
    pub fn new(alloc: Global) -> Frames
        ensures { result ≡ [] }
    {
        Frames {
            alloc,
            kept: Row::new(alloc),
            bytes: 0,
        }
    }

    /// How many messages there are. It takes no memory.
    pub fn len(&self) -> usize
        ensures exact { result ≡ length self.now }
        ensures few { result ≤ packet_limit }
        ensures small { frame_sizes self.now ≤ byte_limit }
    {
        self.kept.len()
    }

    /// How many bytes the frames have, at most 67,108,864. It takes no memory.
    pub fn size(&self) -> usize
        ensures exact { result ≡ frame_sizes self.now }
        ensures small { result ≤ byte_limit }
    {
        self.bytes
    }

    /// Keeps the frames of more messages, where so much was sent before all of these.
    ///
    /// # Errors
    ///
    /// `Packets` exactly where all that is sent would be more than 262,144 packets, else `Bytes` exactly where
    /// their frames would have more than 67,108,864 bytes.
    pub(crate) fn add_sends(
        &mut self,
        before: SentCounts,
        sends: &[Outgoing],
    ) -> Result<(), SendFault>
        requires fits { SendsFit sends.now }
        requires packets { before.packets + length self.old ≤ packet_limit }
        requires bytes { before.bytes + frame_sizes self.old ≤ byte_limit }
        ensures ok { OnOk result (self.new ≡ self.old ++ sends.now) }
        ensures room { (sent : List Outgoing) → AreCountsOf sent before → OnOk result (limit_met (sent ++ (self.old ++ sends.now)) ≡ None) }
        ensures err { (sent : List Outgoing) → AreCountsOf sent before → IfErr result (IsMetBy (sent ++ (self.old ++ sends.now))) }
    {
        if sends.len() > PACKET_LIMIT - before.packets - self.len() {
            return Err(SendFault::Packets);
        }
        self.add_all(BYTE_LIMIT - before.bytes, sends)
    }

    /// Keeps the frames of messages, for whose number there is room. All frames may have so many bytes.
    fn add_all(&mut self, room: usize, sends: &[Outgoing]) -> Result<(), SendFault>
        requires fits { SendsFit sends.now }
        requires few { length self.old + length sends.now ≤ packet_limit }
        requires room { (frame_sizes self.old ≤ room) × (room ≤ byte_limit) }
        ensures ok { OnOk result (self.new ≡ self.old ++ sends.now) }
        ensures within { OnOk result (frame_sizes self.new ≤ room) }
        ensures err { IfErr result (IsTooMuch room (self.old ++ sends.now)) }
    {
        for one in sends {
            match self.add(room, one) {
                Ok(()) => {}
                Err(fault) => return Err(fault),
            }
        }
        Ok(())
    }

    /// Keeps the frame of one more message, of which there may be room for one.
    #[tactic(auto, using(crate::proofs::AddLaws::too_much_one))]
    fn add(&mut self, room: usize, one: &Outgoing) -> Result<(), SendFault>
        requires fits { MessageFits one.now.message }
        requires few { length self.old < packet_limit }
        requires room { (frame_sizes self.old ≤ room) × (room ≤ byte_limit) }
        ensures ok { OnOk result (self.new ≡ self.old ++ one.now ∷ []) }
        ensures within { OnOk result (frame_sizes self.new ≤ room) }
        ensures err { IfErr result (IsTooMuch room (self.old ++ one.now ∷ [])) }
    {
        match kept_of(self.alloc, one) {
            Ok(kept) => self.keep(room, kept),
            Err(fault) => Err(fault),
        }
    }

    fn keep(&mut self, room: usize, kept: Kept) -> Result<(), SendFault>
        requires kept { IsKept kept }
        requires few { length self.old < packet_limit }
        requires room { (frame_sizes self.old ≤ room) × (room ≤ byte_limit) }
        ensures ok { OnOk result (self.new ≡ self.old ++ outgoing_of kept ∷ []) }
        ensures within { OnOk result (frame_sizes self.new ≤ room) }
        ensures err { IfErr result (IsTooMuch room (self.old ++ outgoing_of kept ∷ [])) }
    {
        let more = kept.frame.len();
        if more > room - self.bytes {
            return Err(SendFault::Bytes);
        }
        match self.kept.push(kept) {
            Ok(()) => {
                self.bytes += more;
                Ok(())
            }
            Err(NoMemory) => Err(SendFault::NoMemory),
        }
    }

    /// The frame of the message of this number, if there are so many.
    #[tactic(auto, using(crate::proofs::KeptLaws::frame_at_kept))]
    pub fn frame(&self, number: usize) -> Option<&[u8]>
        ensures { option_map (λ bytes. bytes.now) result ≡ frame_at self.now number }
    {
        frame_in(self.kept.as_slice(), number)
    }

    /// The bytes of the message of this number, if there are so many.
    pub fn bytes(&self, number: usize) -> Option<&[u8]>
        ensures { IsSpelledBy (slice_get self.now number) (option_map (λ bytes. bytes.now) result) }
    {
        if number >= self.kept.len() {
            return None;
        }
        let kept = &self.kept.as_slice()[number];
        Some(bytes_of(kept))
    }

    /// The node that the message of this number goes to, if so many were sent.
    #[tactic(auto, using(crate::proofs::KeptLaws::to_at_kept))]
    pub fn addressee(&self, number: usize) -> Option<Node>
        ensures { result ≡ option_map (λ one. one.to) (slice_get self.now number) }
    {
        addressee_in(self.kept.as_slice(), number)
    }

    /// The message of this number, read from its frame.
    pub fn message(&self, number: usize) -> Result<Message, NoMemory>
        requires { number < length self.now }
        ensures exact { IfOk result (λ message. option_map (λ one. one.message) (slice_get self.now number) ≡ Some message) }
        ensures fits { IfOk result (λ message. message_fits message ≡ true) }
    {
        let kept = &self.kept.as_slice()[number];
        message_of(self.alloc, kept)
    }
}

/// The frames of messages that a step sends, where so much was sent before; nothing is sent by it.
///
/// # Errors
///
/// `Packets` exactly where all that is sent would be more than 262,144 packets, else `Bytes` exactly where
/// their frames would have more than 67,108,864 bytes.
pub fn frame_sends(
    alloc: Global,
    before: SentCounts,
    sends: &[Outgoing],
) -> Result<Frames, SendFault>
    requires fits { SendsFit sends.now }
    requires packets { before.packets ≤ packet_limit }
    requires bytes { before.bytes ≤ byte_limit }
    ensures ok { IfOk result (λ frames. frames ≡ sends.now) }
    ensures room { (sent : List Outgoing) → AreCountsOf sent before → OnOk result (limit_met (sent ++ sends.now) ≡ None) }
    ensures err { (sent : List Outgoing) → AreCountsOf sent before → IfErr result (IsMetBy (sent ++ sends.now)) }
{
    let mut frames = Frames::new(alloc);
    match frames.add_sends(before, sends) {
        Ok(()) => Ok(frames),
        Err(fault) => Err(fault),
    }
}

fn frame_in(kept: &[Kept], number: usize) -> Option<&[u8]>
    ensures { option_map (λ bytes. bytes.now) result ≡ frame_in (slice_get kept.now number) }
{
    match kept.get(number) {
        Some(one) => Some(one.frame.as_slice()),
        None => None,
    }
}

fn addressee_in(kept: &[Kept], number: usize) -> Option<Node>
    ensures { result ≡ addressee_in (slice_get kept.now number) }
{
    match kept.get(number) {
        Some(one) => Some(one.to),
        None => None,
    }
}

/// The message whose frame it is.
fn message_of(alloc: Global, kept: &Kept) -> Result<Message, NoMemory>
    requires { IsKept kept.now }
    ensures exact { IfOk result (λ message. message ≡ (outgoing_of kept.now).message) }
    ensures fits { IfOk result (λ message. message_fits message ≡ true) }
{
    match decode(alloc, bytes_of(kept)) {
        Ok(message) => Ok(message),
        Err(DecodeFault::NoMemory) => Err(NoMemory),
        Err(DecodeFault::Bad { .. }) => unreachable!(),
    }
}

/// The bytes of the message, which stand behind the length of its frame.
fn bytes_of(kept: &Kept) -> &[u8]
    requires { IsKept kept.now }
    ensures { IsSpelling (outgoing_of kept.now).message result.now }
{
    past_length(kept.frame.as_slice())
}

fn past_length(frame: &[u8]) -> &[u8]
    requires { 4 ≤ length frame.now }
    ensures { result.now ≡ drop 4 frame.now }
{
    &frame[4..]
}

/// What is kept of a message.
fn kept_of(alloc: Global, one: &Outgoing) -> Result<Kept, SendFault>
    requires { MessageFits one.now.message }
    ensures kept { IfOk result IsKept }
    ensures ok { IfOk result (λ kept. outgoing_of kept ≡ one.now) }
    ensures err { IfErr result (IsTooLong one.now.message) }
{
    if !is_counted(&one.message) {
        return Err(SendFault::Bytes);
    }
    match frame_of(alloc, &one.message) {
        Ok(frame) => Ok(Kept { to: one.to, frame }),
        Err(fault) => Err(fault),
    }
}

/// The frame of a message.
fn frame_of(alloc: Global, message: &Message) -> Result<Row<u8>, SendFault>
    requires { message_fits message.now ≡ true }
    ensures ok { IfOk result (λ bytes. bytes ≡ frame (spelling message.now)) }
    ensures err { IfErr result (IsTooLong message.now) }
{
    match encode(alloc, message) {
        Ok(spelled) => framed(alloc, spelled.as_slice()),
        Err(NoMemory) => Err(SendFault::NoMemory),
    }
}

fn framed(alloc: Global, spelled: &[u8]) -> Result<Row<u8>, SendFault>
    ensures ok { IfOk result (λ bytes. bytes ≡ frame spelled.now) }
    ensures err { IfErr result (IsTooLongSpelled spelled.now) }
{
    let mut frame = Row::new(alloc);
    match put_frame(alloc, &mut frame, spelled) {
        Ok(()) => Ok(frame),
        Err(FrameFault::Long) => Err(SendFault::Bytes),
        Err(FrameFault::NoMemory) => Err(SendFault::NoMemory),
    }
}
