ghost use Rattle.std.specs.Prelude.{◌≡◌, ◌<◌, ◌++◌, ◌==◌, [], not, None, Some, false, true, length, slice_get, option_map, OnOk, IfOk, IfErr, IfSome};
ghost use Rattle.std.specs.List.{filter, range_with_len};
ghost use Rattle.eris_in_place.specs.MessageRanges.{SendsFit};
ghost use Rattle.eris_msg.specs.Spellings.{message_fits};
ghost use Rattle.eris_rules.specs.Refusals.{limit_met};
ghost use Rattle.eris_network.specs.Limits.{IsMetBy};
ghost use Rattle.eris_network.specs.Networks.{IsSpelledBy, frame_at};

use crate::frames::Frames;
use crate::send_fault::SendFault;
use crate::sent_counts::SentCounts;
use crate::waiting::Waiting;
use eris_base::{NoMemory, Node, Row};
use eris_msg::{Message, Outgoing};
use std::alloc::Global;
use std::marker::Model;

/// Every message that was ever sent, numbered from 0 in order of sending, each kept for good as the frame of
/// its spelling, and which of them still wait: those that were neither delivered nor lost.
#[derive(Debug, Drop)]
pub struct Network {
    frames: Frames,
    waiting: Waiting,
}

impl Model for Network {
    ghost use Rattle.eris_network.specs.Networks.{NetworkValue, network_of};

    ghost Value = { NetworkValue };

    ghost view = { λ n. network_of n.frames n.waiting };
}

impl Network {
    /// Nothing was sent. It takes no memory.
    pub fn new(alloc: Global) -> Network
        ensures { result ≡ record { sent = []; waiting = []; spent = false } }
    {
        Network {
            frames: Frames::new(alloc),
            waiting: Waiting::new(alloc),
        }
    }

    /// How many messages were sent. It takes no memory.
    pub fn sent(&self) -> u32
        ensures { result ≡ length self.now.sent }
    {
        self.frames.len() as u32
    }

    /// The frame of the message of this number. None exactly where no such message was sent. It takes no
    /// memory.
    pub fn packet(&self, number: u32) -> Option<&[u8]>
        ensures { option_map (λ bytes. bytes.now) result ≡ frame_at self.now.sent number }
    {
        self.frames.frame(number as usize)
    }

    /// The bytes of the message of this number: its frame without the frame's head. None exactly where no such
    /// message was sent. It takes no memory.
    pub fn bytes(&self, number: u32) -> Option<&[u8]>
        ensures { IsSpelledBy (slice_get self.now.sent number) (option_map (λ bytes. bytes.now) result) }
    {
        self.frames.bytes(number as usize)
    }

    /// The node that the message of this number goes to. None exactly where no such message was sent. It
    /// takes no memory.
    pub fn addressee(&self, number: u32) -> Option<Node>
        ensures { result ≡ option_map (λ one. one.to) (slice_get self.now.sent number) }
    {
        self.frames.addressee(number as usize)
    }

    /// The message of this number, read from its frame.
    pub fn message(&self, number: u32) -> Result<Message, NoMemory>
        requires { number < length self.now.sent }
        ensures exact { IfOk result (λ message. option_map (λ one. one.message) (slice_get self.now.sent number) ≡ Some message) }
        ensures fits { IfOk result (λ message. message_fits message ≡ true) }
    {
        self.frames.message(number as usize)
    }

    /// The lowest number whose message waits, if one does. It takes no memory.
    pub fn lowest(&self) -> Option<u32>
        requires { self.now.spent ≡ false }
        ensures exact { result ≡ slice_get self.now.waiting 0 }
        ensures sent { IfSome result (λ number. number < length self.now.sent) }
    {
        let few = self.frames.len();
        match self.waiting.lowest() {
            Some(number) if number < few => Some(number as u32),
            _ => None,
        }
    }

    /// The message of this number waits no more. It takes no memory.
    pub fn take(&mut self, number: u32)
        requires spent { self.old.spent ≡ false }
        requires sent { number < length self.old.sent }
        ensures { self.new ≡ record self.old { waiting = filter (λ other. not (other == number)) self.old.waiting } }
    {
        self.waiting.take(number as usize);
    }

    /// Sends messages: each is spelled, framed and kept under the next number, and waits.
    ///
    /// # Errors
    ///
    /// `Packets` exactly where the sent packets would be more than 262,144, else `Bytes` exactly where
    /// their frames would have more than 67,108,864 bytes. After an error nothing is known of the network.
    pub fn send(&mut self, sends: &[Outgoing]) -> Result<(), SendFault>
        requires spent { self.old.spent ≡ false }
        requires fits { SendsFit sends.now }
        ensures ok { OnOk result (self.new ≡ record self.old {
          sent = self.old.sent ++ sends.now;
          waiting = self.old.waiting ++ range_with_len (length self.old.sent) (length sends.now);
        }) }
        ensures room { OnOk result (limit_met (self.old.sent ++ sends.now) ≡ None) }
        ensures err { IfErr result (IsMetBy (self.old.sent ++ sends.now)) }
    {
        let nothing = SentCounts {
            packets: 0,
            bytes: 0,
        };
        // Its contract tells that what was sent is within the limits.
        let _sent = self.frames.len();
        match self.frames.add_sends(nothing, sends) {
            Ok(()) => {}
            Err(fault) => return Err(fault),
        }
        self.waiting.add_all(sends.len())?;
        Ok(())
    }
}
