//! Stamped packets, and what the coordinator asks and tells of places.
ghost use Rattle.std.specs.Prelude.{◌≡◌, IfOk, OnOk};
ghost use Rattle.eris_base.specs.Places.{number_in};
ghost use Rattle.eris_drop.specs.Requests.{answer_request};
ghost use Rattle.eris_log.specs.Held.{packet_at};
ghost use Rattle.eris_log.specs.Parts.{hold};
ghost use Rattle.eris_rules.specs.EpochReplicas.{has_spoken_for, speaks_again, txn_at, txn_row, gives_packet, drops_for_a_time, answers_request, request_row, found_row, dropped_row};
ghost use Rattle.eris_rules.specs.Speaking.{speaks_for};
ghost use Rattle.eris_member.specs.MemberValues.{after};

use crate::member::EpochMember;
use eris_base::{Dup, NoMemory, Node, Place, Row};
use eris_drop::{RequestAnswer, answer_request};
use eris_kept_store::is_open;
use eris_msg::{Message, Outgoing};
use eris_rules::tell;
use eris_txn::Packet;

impl EpochMember {
    /// A stamped packet comes, and is held at the number that its stamp gives the shard.
    #[tactic(auto, unfolding(eris_rules::specs::EpochReplicas::txn_row))]
    pub(crate) fn txn(&mut self, packet: Packet) -> Result<Row<Outgoing>, NoMemory>
        requires { packet.stamp.epoch ≡ self.old.epoch }
        ensures { IfOk result (λ sends. (self.new, sends) ≡ after self.old (txn_row self.old.me self.old.state packet)) }
    {
        match packet.stamp.number_of(self.shard) {
            Some(number) => self.txn_at(packet, number),
            None => Ok(Row::new(self.alloc)),
        }
    }

    #[tactic(auto, unfolding(eris_rules::specs::EpochReplicas::txn_at, eris_rules::specs::EpochReplicas::holds_packet))]
    fn txn_at(&mut self, packet: Packet, number: u32) -> Result<Row<Outgoing>, NoMemory>
        requires epoch { packet.stamp.epoch ≡ self.old.epoch }
        requires named { number_in packet.stamp.places self.old.me.shard ≡ Some number }
        ensures { IfOk result (λ sends. (self.new, sends) ≡ after self.old (txn_at self.old.me self.old.state packet number)) }
    {
        if self.part.held(number).is_some() {
            return self.speak_again(number);
        }
        self.hold(packet)?;
        Ok(Row::new(self.alloc))
    }

    /// A packet that is held comes again: what was said of it is said again.
    #[tactic(auto, unfolding(eris_rules::specs::EpochReplicas::speaks_again))]
    fn speak_again(&mut self, number: u32) -> Result<Row<Outgoing>, NoMemory>
        ensures { IfOk result (λ sends. (self.new, sends) ≡ after self.old (speaks_again self.old.me self.old.state number)) }
    {
        if self.has_spoken_for(number) {
            return self.speak_once(number);
        }
        Ok(Row::new(self.alloc))
    }

    /// What is said of the packet that is held at the number.
    fn speak_once(&mut self, number: u32) -> Result<Row<Outgoing>, NoMemory>
        ensures { IfOk result (λ sends. (self.new, sends) ≡ after self.old (record { state = self.old.state; sends = speaks_for self.old.me self.old.state number })) }
    {
        let mut sends = Row::new(self.alloc);
        let mut kept = self.kept.take();
        self.speak_for(&mut kept, &mut sends, number)?;
        self.kept = kept;
        Ok(sends)
    }

    /// Whether it has spoken for the number in this view, and would still do so.
    #[tactic(auto, unfolding(eris_rules::specs::EpochReplicas::has_spoken_for))]
    fn has_spoken_for(&self, number: u32) -> bool
        ensures { result ≡ has_spoken_for self.now.state number }
    {
        self.is_normal()
            && number <= self.spoken
            && number <= self.part.length()
            && is_open(&self.part, number)
    }

    /// The coordinator asks for a place.
    #[tactic(auto, unfolding(eris_rules::specs::EpochReplicas::request_row))]
    pub(crate) fn request(&mut self, place: Place) -> Result<Row<Outgoing>, NoMemory>
        requires { place.epoch ≡ self.old.epoch }
        ensures { IfOk result (λ sends. (self.new, sends) ≡ after self.old (request_row self.old.me self.old.state place)) }
    {
        if self.is_normal() {
            return self.answer_request(place);
        }
        Ok(Row::new(self.alloc))
    }

    /// Gives the packet that has the place, or drops the place for a time; says nothing where the place is
    /// decided already.
    fn answer_request(&mut self, place: Place) -> Result<Row<Outgoing>, NoMemory>
        requires { place.epoch ≡ self.old.epoch }
        ensures { IfOk result (λ sends. (self.new, sends) ≡ after self.old
            (answers_request self.old.me self.old.state place (answer_request self.old.state.part place))) }
    {
        match answer_request(&self.part, place) {
            RequestAnswer::Has(number) => self.give_packet(number),
            RequestAnswer::Silent => Ok(Row::new(self.alloc)),
            RequestAnswer::Temp => self.drop_for_a_time(place),
        }
    }

    fn give_packet(&self, number: u32) -> Result<Row<Outgoing>, NoMemory>
        ensures { IfOk result (λ sends. (self.now, sends) ≡ after self.now
            (gives_packet self.now.state (packet_at self.now.state.part.held number))) }
    {
        match self.part.held(number) {
            Some(packet) => {
                let packet = packet.copy(self.alloc)?;
                tell(self.alloc, Node::Coordinator, Message::Has { packet })
            }
            None => Ok(Row::new(self.alloc)),
        }
    }

    /// From here on a packet that has the place doesn't count here unless the coordinator found it.
    #[tactic(auto, unfolding(eris_rules::specs::EpochReplicas::drops_for_a_time))]
    fn drop_for_a_time(&mut self, place: Place) -> Result<Row<Outgoing>, NoMemory>
        requires { place.epoch ≡ self.old.epoch }
        ensures { IfOk result (λ sends. (self.new, sends) ≡ after self.old (drops_for_a_time self.old.me self.old.state place)) }
    {
        self.mark_temp(place)?;
        let message = Message::TempDropped {
            place,
            shard: self.shard,
            replica: self.replica,
            view: self.tally.view(),
        };
        tell(self.alloc, Node::Coordinator, message)
    }

    /// The coordinator found a packet: it is held where it names the shard, and its places are found.
    #[tactic(auto, unfolding(eris_rules::specs::EpochReplicas::found_row))]
    pub(crate) fn found(&mut self, packet: Packet) -> Result<Row<Outgoing>, NoMemory>
        requires { packet.stamp.epoch ≡ self.old.epoch }
        ensures { IfOk result (λ sends. (self.new, sends) ≡ after self.old (found_row self.old.state packet)) }
    {
        let stamp = packet.stamp.copy(self.alloc)?;
        self.hold_named(packet)?;
        self.mark_found(&stamp)?;
        Ok(Row::new(self.alloc))
    }

    /// Holds the packet where it names the shard.
    #[tactic(auto, using(crate::proofs::Kept::kept), unfolding(eris_log::specs::Parts::hold, eris_log::specs::Parts::hold_at))]
    fn hold_named(&mut self, packet: Packet) -> Result<(), NoMemory>
        requires { packet.stamp.epoch ≡ self.old.epoch }
        ensures { OnOk result (self.new ≡ record self.old {
          state = record self.old.state {
            part = hold self.old.state.part packet;
          };
        }) }
    {
        if packet.stamp.number_of(self.shard).is_some() {
            return self.hold(packet);
        }
        Ok(())
    }

    /// The coordinator dropped a place for good.
    #[tactic(auto, unfolding(eris_rules::specs::EpochReplicas::dropped_row))]
    pub(crate) fn dropped(&mut self, place: Place) -> Result<Row<Outgoing>, NoMemory>
        requires { place.epoch ≡ self.old.epoch }
        ensures { IfOk result (λ sends. (self.new, sends) ≡ after self.old (dropped_row self.old.state place)) }
    {
        self.mark_dropped(place)?;
        Ok(Row::new(self.alloc))
    }
}
