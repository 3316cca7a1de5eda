//! How far the log is settled.
ghost use Rattle.std.specs.Prelude.{◌≡◌, ◌<◌, ◌+◌, ◌*◌, ◌++◌, IfOk, OnOk};
ghost use Rattle.eris_base.specs.Each.{Each};
ghost use Rattle.eris_rules.specs.Outer.{outer_sends};
ghost use Rattle.eris_rules.specs.Settling.{shared_number, tells_late, tells_settled, settles, raises, enters_above, acknowledges, sync_ask_same, sync_ask_row, notes_ack, ack_row, mark_all_dropped, learns, hears_settled, settled_same, settled_row, repeats_settled, raises_or_repeats, also_asks, sync_row};
ghost use Rattle.eris_member.specs.MemberValues.{after};

use crate::late::{late_answers, late_sends};
use crate::member::EpochMember;
use eris_base::{NoMemory, Place, ReplicaId, Row, View};
use eris_kept_store::log_upto;
use eris_log::places::pairs_of;
use eris_msg::{Message, Outgoing};
use eris_rules::tell;

impl EpochMember {
    /// The learner's timer: settles what a quorum has, or tells again how far the log is settled, and asks the
    /// others how far they are.
    #[tactic(auto, unfolding(eris_rules::specs::Settling::sync_row))]
    pub(crate) fn sync(&mut self) -> Result<Row<Outgoing>, NoMemory>
        ensures { IfOk result (λ sends. (self.new, sends) ≡ after self.old (sync_row self.old.me self.old.state)) }
    {
        if self.leads() {
            return self.raise_and_ask();
        }
        Ok(Row::new(self.alloc))
    }

    #[tactic(auto, using(crate::proofs::Told::also_asks_told))]
    fn raise_and_ask(&mut self) -> Result<Row<Outgoing>, NoMemory>
        ensures { IfOk result (λ sends. (self.new, sends) ≡ after self.old
            (also_asks self.old.me (raises_or_repeats self.old.me self.old.state))) }
    {
        let mut sends = self.raise_or_repeat()?;
        let epoch = self.epoch;
        let view = self.view();
        let asks = self.tell_others(&Message::SyncAsk { epoch, view })?;
        add_all(&mut sends, asks)?;
        Ok(sends)
    }

    #[tactic(auto, unfolding(eris_rules::specs::Settling::raises_or_repeats))]
    fn raise_or_repeat(&mut self) -> Result<Row<Outgoing>, NoMemory>
        ensures { IfOk result (λ sends. (self.new, sends) ≡ after self.old
            (raises_or_repeats self.old.me self.old.state)) }
    {
        let shared = self.shared_number();
        if self.settled < shared {
            return self.settle_upto(shared);
        }
        self.repeat_settled()
    }

    /// Tells again how far the log is settled, for a replica that may have missed it.
    #[tactic(auto, unfolding(eris_rules::specs::Settling::repeats_settled))]
    fn repeat_settled(&self) -> Result<Row<Outgoing>, NoMemory>
        ensures { IfOk result (λ sends. (self.now, sends) ≡ after self.now
            (repeats_settled self.now.me self.now.state)) }
    {
        if self.settled > 0 {
            return self.tell_settled(self.settled);
        }
        Ok(Row::new(self.alloc))
    }

    /// How far a quorum has come, itself among it.
    #[tactic(auto, using(crate::proofs::Told::settled_is), unfolding(eris_rules::specs::Settling::shared_number))]
    fn shared_number(&self) -> u32
        ensures { result ≡ shared_number self.now.me self.now.state }
    {
        self.acks.settled(self.part.length())
    }

    /// Settles what a quorum has, if that is more than is settled.
    #[tactic(auto, unfolding(eris_rules::specs::Settling::raises))]
    fn raise(&mut self) -> Result<Row<Outgoing>, NoMemory>
        ensures { IfOk result (λ sends. (self.new, sends) ≡ after self.old (raises self.old.me self.old.state)) }
    {
        let shared = self.shared_number();
        if self.settled < shared {
            return self.settle_upto(shared);
        }
        Ok(Row::new(self.alloc))
    }

    /// Settles the log up to the number, gives the late answers up to there, and tells the others.
    #[tactic(auto, using(crate::proofs::Told::settles_told))]
    fn settle_upto(&mut self, number: u32) -> Result<Row<Outgoing>, NoMemory>
        ensures { IfOk result (λ sends. (self.new, sends) ≡ after self.old
            (settles self.old.me self.old.state number)) }
    {
        let mut sends = self.tell_late(number)?;
        let settled = self.tell_settled(number)?;
        add_all(&mut sends, settled)?;
        self.settle(number);
        Ok(sends)
    }

    /// The late answers at places above the settled number and up to the new one, each to its asker.
    #[tactic(auto, using(crate::proofs::Told::tells_late_told))]
    fn tell_late(&self, number: u32) -> Result<Row<Outgoing>, NoMemory>
        ensures { IfOk result (λ sends. sends ≡ outer_sends self.now.epoch (tells_late self.now.me self.now.state number)) }
    {
        let log = log_upto(self.alloc, &self.prior, &self.part, number)?;
        let epoch = self.part.epoch();
        let dones = late_answers(self.alloc, self.shard, epoch, log.as_slice(), self.settled)?;
        late_sends(self.alloc, self.shard, self.replica, dones)
    }

    /// Tells the others that the log is settled up to the number, and what is dropped for good.
    #[tactic(auto, using(crate::proofs::Told::tells_settled_told))]
    fn tell_settled(&self, number: u32) -> Result<Row<Outgoing>, NoMemory>
        ensures { IfOk result (λ sends. sends ≡ outer_sends self.now.epoch (tells_settled self.now.me self.now.state number)) }
    {
        let epoch = self.epoch;
        let view = self.view();
        let places = pairs_of(self.alloc, self.part.perm())?;
        self.tell_others(&Message::Settled {
            epoch,
            view,
            number,
            places,
        })
    }

    /// Enters a view above its own whose beginning it has missed.
    #[tactic(auto, unfolding(eris_rules::specs::Settling::enters_above))]
    fn enter_above(&mut self, view: View) -> Result<Row<Outgoing>, NoMemory>
        ensures { IfOk result (λ sends. (self.new, sends) ≡ after self.old
            (enters_above self.old.me self.old.state view)) }
    {
        if self.view().0 < view.0 && !self.is_learner(view) {
            return self.enter_view(view);
        }
        Ok(Row::new(self.alloc))
    }

    /// The learner asks how far the others are.
    #[tactic(auto, unfolding(eris_rules::specs::Settling::sync_ask_row))]
    pub(crate) fn sync_ask(&mut self, view: View) -> Result<Row<Outgoing>, NoMemory>
        ensures { IfOk result (λ sends. (self.new, sends) ≡ after self.old
            (sync_ask_row self.old.me self.old.state view)) }
    {
        if view == self.view() {
            return self.sync_ask_same();
        }
        self.enter_above(view)
    }

    #[tactic(auto, unfolding(eris_rules::specs::Settling::sync_ask_same))]
    fn sync_ask_same(&mut self) -> Result<Row<Outgoing>, NoMemory>
        ensures { IfOk result (λ sends. (self.new, sends) ≡ after self.old
            (sync_ask_same self.old.me self.old.state)) }
    {
        if self.follows() {
            return self.acknowledge();
        }
        Ok(Row::new(self.alloc))
    }

    /// Tells the learner its length.
    #[tactic(auto, unfolding(eris_rules::specs::Settling::acknowledges))]
    fn acknowledge(&self) -> Result<Row<Outgoing>, NoMemory>
        ensures { IfOk result (λ sends. (self.now, sends) ≡ after self.now
            (acknowledges self.now.me self.now.state)) }
    {
        let view = self.view();
        let message = Message::Ack {
            replica: self.replica,
            epoch: self.epoch,
            view,
            length: self.part.length(),
        };
        tell(self.alloc, self.learner_node(view), message)
    }

    /// Another replica tells the learner how far it is.
    #[tactic(auto, unfolding(eris_rules::specs::Settling::ack_row))]
    pub(crate) fn ack(
        &mut self,
        replica: ReplicaId,
        view: View,
        length: u32,
    ) -> Result<Row<Outgoing>, NoMemory>
        requires { replica.0 < 2 * self.old.me.config.f + 1 }
        ensures { IfOk result (λ sends. (self.new, sends) ≡ after self.old
            (ack_row self.old.me self.old.state replica view length)) }
    {
        if view == self.view() && self.leads() && replica != self.replica {
            return self.note_and_raise(replica, length);
        }
        Ok(Row::new(self.alloc))
    }

    #[tactic(auto, unfolding(eris_rules::specs::Settling::notes_ack))]
    fn note_and_raise(&mut self, replica: ReplicaId, length: u32) -> Result<Row<Outgoing>, NoMemory>
        requires { replica.0 < 2 * self.old.me.config.f + 1 }
        ensures { IfOk result (λ sends. (self.new, sends) ≡ after self.old
            (notes_ack self.old.me self.old.state replica length)) }
    {
        self.note_ack(replica, length);
        self.raise()
    }

    /// The learner tells how far the log is settled, and which places are dropped for good.
    #[tactic(auto, unfolding(eris_rules::specs::Settling::settled_row))]
    pub(crate) fn hear_settled(
        &mut self,
        view: View,
        number: u32,
        places: &[Place],
    ) -> Result<Row<Outgoing>, NoMemory>
        requires { Each (λ place. place.epoch ≡ self.old.epoch) places.now }
        ensures { IfOk result (λ sends. (self.new, sends) ≡ after self.old
            (settled_row self.old.me self.old.state view number places.now)) }
    {
        if view == self.view() {
            return self.hear_settled_same(number, places);
        }
        self.enter_above(view)
    }

    #[tactic(auto, unfolding(eris_rules::specs::Settling::settled_same))]
    fn hear_settled_same(
        &mut self,
        number: u32,
        places: &[Place],
    ) -> Result<Row<Outgoing>, NoMemory>
        requires { Each (λ place. place.epoch ≡ self.old.epoch) places.now }
        ensures { IfOk result (λ sends. (self.new, sends) ≡ after self.old
            (settled_same self.old.me self.old.state number places.now)) }
    {
        if self.follows() {
            return self.learn(number, places);
        }
        Ok(Row::new(self.alloc))
    }

    /// Joins the learner's drops, and then settles up to the number, if its part has all up to there.
    #[tactic(auto, unfolding(eris_rules::specs::Settling::hears_settled))]
    fn learn(&mut self, number: u32, places: &[Place]) -> Result<Row<Outgoing>, NoMemory>
        requires { Each (λ place. place.epoch ≡ self.old.epoch) places.now }
        ensures { IfOk result (λ sends. (self.new, sends) ≡ after self.old
            (hears_settled self.old.state number places.now)) }
    {
        self.mark_all_dropped(places)?;
        self.learn_number(number);
        Ok(Row::new(self.alloc))
    }

    #[tactic(auto, unfolding(eris_rules::specs::Settling::learns))]
    fn learn_number(&mut self, number: u32)
        ensures { self.new ≡ record self.old { state = learns self.old.state number } }
    {
        if self.part.covers(number) && self.settled < number {
            self.settle(number);
        }
    }

    /// Drops places of the epoch for good.
    fn mark_all_dropped(&mut self, places: &[Place]) -> Result<(), NoMemory>
        requires { Each (λ place. place.epoch ≡ self.old.epoch) places.now }
        ensures { OnOk result (self.new ≡ record self.old {
          state = record self.old.state {
            part = mark_all_dropped self.old.state.part places.now;
          };
        }) }
    {
        for place in places {
            self.mark_dropped(*place)?;
        }
        Ok(())
    }
}

/// Adds more sends behind others.
fn add_all(sends: &mut Row<Outgoing>, more: Row<Outgoing>) -> Result<(), NoMemory>
    ensures { OnOk result (sends.new ≡ sends.old ++ more) }
{
    for send in more.into_vec() {
        sends.push(send)?;
    }
    Ok(())
}
