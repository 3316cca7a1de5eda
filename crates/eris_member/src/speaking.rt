//! What a replica tells clients, and what it asks for where a packet is missing: what follows each input.
ghost use Rattle.std.specs.Prelude.{◌≡◌, ◌<◌, ◌≤◌, ◌+◌, ◌-◌, ◌^◌, ◌++◌, ◌∷◌, [], Some, OnOk, IsTrue};
ghost use Rattle.eris_base.specs.declared.ids.Node.TheVariants.{Coordinator};
ghost use Rattle.eris_kept_store.specs.KeptStores.{IfKept};
ghost use Rattle.eris_log.specs.Entries.{length_of, own_place};
ghost use Rattle.eris_log.specs.Held.{packet_at};
ghost use Rattle.eris_rules.specs.EpochMessages.{send, Notifies, Find};
ghost use Rattle.eris_rules.specs.Outer.{outer_send, outer_sends};
ghost use Rattle.eris_rules.specs.ReplicaAnswers.{log_upto, answer_after};
ghost use Rattle.eris_rules.specs.ReplicaStates.{quiet};
ghost use Rattle.eris_rules.specs.Speaking.{vouch_for, reply_for, replies_with, speaks_of, speaks_for, speaks_at, speaks_after, speaks_on, holds_from, asks_gap, asks_once, tail};
ghost use Rattle.eris_member.specs.MemberValues.{behind, gap_of};

use crate::member::EpochMember;
use eris_base::{Dup, NoMemory, Node, Place, Row};
use eris_kept_store::{KeptStore, answer_at, is_open};
use eris_locks::phase_of;
use eris_log::Part;
use eris_msg::{Message, Outgoing};
use eris_txn::{Answer, Packet};

impl EpochMember {
    /// What follows each input: a replica that takes part in its view speaks for what it has now, and asks
    /// for what is missing.
    #[tactic(auto, using(crate::proofs::Following::following), unfolding(eris_rules::specs::Speaking::tail))]
    pub(crate) fn follow(&mut self, sends: &mut Row<Outgoing>) -> Result<(), NoMemory>
        ensures { OnOk result ((self.new, sends.new) ≡ behind sends.old self.old (tail self.old.me (quiet self.old.state))) }
    {
        if self.is_normal() {
            self.speak_on(sends)?;
            self.ask_once(sends)?;
        }
        Ok(())
    }

    /// Speaks for each number up to its length that it hasn't spoken for, ascending.
    #[tactic(auto, unfolding(eris_rules::specs::Speaking::speaks_on))]
    fn speak_on(&mut self, sends: &mut Row<Outgoing>) -> Result<(), NoMemory>
        ensures { OnOk result ((self.new, sends.new) ≡ behind sends.old self.old (speaks_on self.old.me (quiet self.old.state))) }
    {
        let length = self.part.length();
        let mut kept = self.kept.take();
        self.speak_after(&mut kept, sends, length.saturating_sub(self.spoken))?;
        self.kept = kept;
        self.spoken = self.spoken.max(length);
        Ok(())
    }

    /// Speaks for so many numbers after the one that it has spoken for.
    #[tactic(auto, using(crate::proofs::Following::sent), unfolding(eris_rules::specs::Speaking::speaks_after))]
    fn speak_after(
        &self,
        kept: &mut Option<KeptStore>,
        sends: &mut Row<Outgoing>,
        count: u32,
    ) -> Result<(), NoMemory>
        requires fits { self.now.state.spoken + count < 2 ^ 32 }
        requires kept { IfKept self.now.me.shard self.now.me.prior self.now.state.part kept.old }
        ensures sent { OnOk result (sends.new ≡ sends.old ++ outer_sends self.now.epoch
            (speaks_after self.now.me self.now.state self.now.state.spoken count)) }
        ensures kept { IfKept self.now.me.shard self.now.me.prior self.now.state.part kept.new }
    {
        for more in 0..count {
            self.speak_at(kept, sends, self.spoken + more + 1)?;
        }
        Ok(())
    }

    #[tactic(auto, unfolding(eris_rules::specs::Speaking::speaks_at))]
    fn speak_at(
        &self,
        kept: &mut Option<KeptStore>,
        sends: &mut Row<Outgoing>,
        number: u32,
    ) -> Result<(), NoMemory>
        requires kept { IfKept self.now.me.shard self.now.me.prior self.now.state.part kept.old }
        ensures sent { OnOk result (sends.new ≡ sends.old ++ outer_sends self.now.epoch
            (speaks_at self.now.me self.now.state number)) }
        ensures kept { IfKept self.now.me.shard self.now.me.prior self.now.state.part kept.new }
    {
        if is_open(&self.part, number) {
            self.speak_for(kept, sends, number)?;
        }
        Ok(())
    }

    /// Tells the asker of the packet that is held at the number.
    #[tactic(auto, unfolding(eris_rules::specs::Speaking::speaks_for))]
    pub(crate) fn speak_for(
        &self,
        kept: &mut Option<KeptStore>,
        sends: &mut Row<Outgoing>,
        number: u32,
    ) -> Result<(), NoMemory>
        requires kept { IfKept self.now.me.shard self.now.me.prior self.now.state.part kept.old }
        ensures sent { OnOk result (sends.new ≡ sends.old ++ outer_sends self.now.epoch
            (speaks_for self.now.me self.now.state number)) }
        ensures kept { IfKept self.now.me.shard self.now.me.prior self.now.state.part kept.new }
    {
        match self.part.held(number) {
            Some(packet) => self.speak_of(kept, sends, number, packet),
            None => Ok(()),
        }
    }

    #[tactic(auto, unfolding(eris_rules::specs::Speaking::speaks_of))]
    fn speak_of(
        &self,
        kept: &mut Option<KeptStore>,
        sends: &mut Row<Outgoing>,
        number: u32,
        packet: &Packet,
    ) -> Result<(), NoMemory>
        requires kept { IfKept self.now.me.shard self.now.me.prior self.now.state.part kept.old }
        requires held { packet_at self.now.state.part.held number ≡ Some packet.now }
        ensures sent { OnOk result (sends.new ≡ sends.old ++ outer_sends self.now.epoch
            (speaks_of self.now.me self.now.state number packet.now)) }
        ensures kept { IfKept self.now.me.shard self.now.me.prior self.now.state.part kept.new }
    {
        if self.is_learner(self.tally.view()) {
            self.reply_for(kept, sends, number, packet)
        } else {
            self.vouch_for(sends, packet)
        }
    }

    /// It has the packet, and has no gap before it.
    fn vouch_for(&self, sends: &mut Row<Outgoing>, packet: &Packet) -> Result<(), NoMemory>
        ensures { OnOk result (sends.new ≡ sends.old ++ outer_sends self.now.epoch
            (vouch_for self.now.me self.now.state packet.now ∷ [])) }
    {
        let stamp = packet.stamp.copy(self.alloc)?;
        sends.push(Outgoing {
            to: Node::Client(packet.asker),
            message: Message::Vouch {
                view: self.tally.view(),
                shard: self.shard,
                replica: self.replica,
                stamp,
                id: packet.id,
                phase: phase_of(&packet.body),
            },
        })
    }

    /// The learner gives the store's answer over the log before the packet, and says nothing where the
    /// packet waits for a lock.
    fn reply_for(
        &self,
        kept: &mut Option<KeptStore>,
        sends: &mut Row<Outgoing>,
        number: u32,
        packet: &Packet,
    ) -> Result<(), NoMemory>
        requires kept { IfKept self.now.me.shard self.now.me.prior self.now.state.part kept.old }
        requires held { packet_at self.now.state.part.held number ≡ Some packet.now }
        ensures sent { OnOk result (sends.new ≡ sends.old ++ outer_sends self.now.epoch
            (replies_with self.now.me self.now.state packet.now
            (answer_after self.now.me.shard (log_upto self.now.me.prior self.now.state.part (number - 1)) packet.now))) }
        ensures kept { IfKept self.now.me.shard self.now.me.prior self.now.state.part kept.new }
    {
        match answer_at(
            self.alloc,
            self.shard,
            &self.prior,
            &self.part,
            number,
            packet,
            kept,
        )? {
            Some(answer) => self.reply_with(sends, packet, answer),
            None => Ok(()),
        }
    }

    fn reply_with(
        &self,
        sends: &mut Row<Outgoing>,
        packet: &Packet,
        answer: Answer,
    ) -> Result<(), NoMemory>
        ensures { OnOk result (sends.new ≡ sends.old ++ outer_sends self.now.epoch
            (reply_for self.now.me self.now.state packet.now answer ∷ [])) }
    {
        let stamp = packet.stamp.copy(self.alloc)?;
        sends.push(Outgoing {
            to: Node::Client(packet.asker),
            message: Message::Reply {
                view: self.tally.view(),
                shard: self.shard,
                replica: self.replica,
                stamp,
                id: packet.id,
                phase: phase_of(&packet.body),
                answer,
            },
        })
    }

    /// Asks for the place behind its length where that is a gap, unless it asked for it already.
    #[tactic(auto, unfolding(eris_rules::specs::Speaking::asks_once, eris_rules::specs::Speaking::asks_gap))]
    fn ask_once(&mut self, sends: &mut Row<Outgoing>) -> Result<(), NoMemory>
        ensures { OnOk result ((self.new, sends.new) ≡ behind sends.old self.old (asks_once self.old.me (quiet self.old.state))) }
    {
        match gap_of(&self.part) {
            Some(number) if self.asked != Some(number) => self.ask_gap(sends, number),
            _ => Ok(()),
        }
    }

    #[tactic(auto, unfolding(eris_rules::specs::Speaking::asks_gap))]
    fn ask_gap(&mut self, sends: &mut Row<Outgoing>, number: u32) -> Result<(), NoMemory>
        requires { number ≡ length_of self.old.state.part + 1 }
        ensures { OnOk result ((self.new, sends.new) ≡ behind sends.old self.old (asks_gap self.old.me (quiet self.old.state))) }
    {
        sends.push(self.find(number))?;
        self.asked = Some(number);
        Ok(())
    }

    /// Asks the coordinator for the place of the number.
    pub(crate) fn find(&self, number: u32) -> Outgoing
        ensures { result ≡ outer_send self.now.epoch (send Coordinator (Notifies (Find self.now.me.replica (own_place self.now.state.part number)))) }
    {
        Outgoing {
            to: Node::Coordinator,
            message: Message::Find {
                replica: self.replica,
                place: Place {
                    epoch: self.part.epoch(),
                    shard: self.part.shard(),
                    number,
                },
            },
        }
    }
}

/// The number behind the part's length, where a packet is held there or at a greater number.
#[tactic(auto, unfolding(eris_rules::specs::Speaking::has_gap))]
pub(crate) fn gap_of(part: &Part) -> Option<u32>
    ensures { result ≡ gap_of part.now }
{
    let length = part.length();
    if holds_above(part.held_list(), length) {
        Some(length + 1)
    } else {
        None
    }
}

/// Whether a packet is held at a number above this one.
#[tactic(auto, unfolding(eris_rules::specs::Speaking::holds_from))]
fn holds_above(held: &[(u32, Packet)], number: u32) -> bool
    ensures exact { result ≡ holds_from held.now (number + 1) }
    ensures small { IsTrue result → number + 1 < 2 ^ 32 }
{
    for pair in held {
        if number < pair.0 {
            return true;
        }
    }
    false
}
