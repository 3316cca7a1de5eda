ghost use Rattle.std.specs.Prelude.{◌≡◌, ◌<◌, ◌+◌, ◌*◌, IfOk, OnOk, OnErr, IsSome};
ghost use Rattle.eris_base.specs.ConfigLimits.{IsConfig};
ghost use Rattle.eris_base.specs.Places.{number_in};
ghost use Rattle.eris_log.specs.Parts.{hold, mark_temp, mark_found, mark_dropped, merge};
ghost use Rattle.eris_rules.specs.ReplicaStates.{fresh, is_normal, is_learner, learner_node};
ghost use Rattle.eris_rules.specs.Settling.{follows, leads};
ghost use Rattle.eris_rules.specs.Views.{entered, became_normal, view_tally};
ghost use Rattle.eris_view.specs.AckTallies.{with_ack};
ghost use Rattle.eris_view.specs.ViewTallies.{with_part, union_of, is_ready};
ghost use Rattle.eris_member.specs.MemberValues.{IsOfOwn};

use eris_base::{
    Config, Dup, Epoch, NoMemory, Node, Place, ReplicaId, Row, ShardId, Stamp, View, learner,
};
use eris_kept_store::{KeptStore, kept_beside};
use eris_log::{Merge, Part};
use eris_rules::ReplicaStatus;
use eris_txn::Packet;
use eris_view::{AckTally, ViewTally};
use std::alloc::Global;
use std::marker::Model;

/// A replica within one epoch. Contracts see it as the member of its shard that it is, with the packets of
/// the epochs before, and its state in the epoch as the rules have it.
#[derive(Debug, Drop)]
pub struct EpochMember {
    pub(crate) alloc: Global,
    pub(crate) config: Config,
    pub(crate) shard: ShardId,
    pub(crate) replica: ReplicaId,
    pub(crate) epoch: Epoch,
    /// The packets of the epochs before, on the shard, in order.
    pub(crate) prior: Row<Packet>,
    pub(crate) status: ReplicaStatus,
    pub(crate) part: Part,
    /// The number up to which its log is kept by a quorum for good.
    pub(crate) settled: u32,
    /// The number up to which it has told clients in this view.
    pub(crate) spoken: u32,
    /// The number that it last asked the coordinator for.
    pub(crate) asked: Option<u32>,
    /// The parts that it noted as the learner of its view, which is to begin.
    pub(crate) tally: ViewTally,
    /// The lengths that it noted as the learner of its view.
    pub(crate) acks: AckTally,
    /// The shard's store as far as it has spoken for its log, so that it speaks for a new number by one step.
    /// Contracts don't see it, and None is always right.
    pub(crate) kept: Option<KeptStore>,
}

impl Model for EpochMember {
    ghost use Rattle.eris_member.specs.MemberValues.{MemberValue, IsMember};

    ghost Value = { MemberValue };

    ghost view = { λ m. record {
      me = record { config = m.config; shard = m.shard; replica = m.replica; prior = m.prior };
      epoch = m.epoch;
      state = record {
        view = m.tally.view;
        status = m.status;
        part = m.part;
        settled = m.settled;
        spoken = m.spoken;
        asked = m.asked;
        noted = m.tally.noted;
        acks = m.acks.acks;
      };
    } };

    ghost invariant = { λ m. IsMember m.config m.epoch m.shard m.prior m.part m.tally m.acks m.kept };
}

impl EpochMember {
    /// A replica that begins an epoch, with the shard's packets of the epochs before. It takes no memory.
    #[tactic(auto, unfolding(eris_rules::specs::ReplicaStates::fresh, eris_log::specs::Parts::empty_part, eris_view::specs::ViewTallies::no_parts, eris_view::specs::AckTallies::no_acks))]
    pub fn new(
        alloc: Global,
        config: Config,
        shard: ShardId,
        replica: ReplicaId,
        epoch: Epoch,
        prior: Row<Packet>,
    ) -> EpochMember
        ensures exact { result ≡ record {
          me = record { config = config; shard = shard; replica = replica; prior = prior };
          epoch = epoch;
          state = fresh epoch shard;
        } }
        ensures config { IsConfig config }
    {
        EpochMember {
            alloc,
            config,
            shard,
            replica,
            epoch,
            prior,
            status: ReplicaStatus::Normal,
            part: Part::new(alloc, epoch, shard),
            settled: 0,
            spoken: 0,
            asked: None,
            tally: ViewTally::new(alloc, View(0), config.f()),
            acks: AckTally::new(config.f()),
            kept: None,
        }
    }

    /// The config of its system. It takes no memory.
    pub fn config(&self) -> Config
        ensures { result ≡ self.now.me.config }
    {
        self.config
    }

    /// Its shard. It takes no memory.
    pub fn shard(&self) -> ShardId
        ensures { result ≡ self.now.me.shard }
    {
        self.shard
    }

    /// Its number among the replicas of the shard. It takes no memory.
    pub fn replica(&self) -> ReplicaId
        ensures { result ≡ self.now.me.replica }
    {
        self.replica
    }

    /// The epoch. It takes no memory.
    pub fn epoch(&self) -> Epoch
        ensures { result ≡ self.now.epoch }
    {
        self.epoch
    }

    /// The view that it is in, or on its way to. It takes no memory.
    pub fn view(&self) -> View
        ensures { result ≡ self.now.state.view }
    {
        self.tally.view()
    }

    /// Whether it takes part in its view. It takes no memory.
    pub fn status(&self) -> ReplicaStatus
        ensures { result ≡ self.now.state.status }
    {
        self.status
    }

    /// What it knows of the epoch. It takes no memory.
    pub fn part(&self) -> &Part
        ensures exact { result.now ≡ self.now.state.part }
        ensures own { IsOfOwn self.now.epoch self.now.me.shard self.now.state.part }
    {
        &self.part
    }

    /// The number up to which its log is settled. It takes no memory.
    pub fn settled(&self) -> u32
        ensures { result ≡ self.now.state.settled }
    {
        self.settled
    }

    /// The packets of the epochs before, on the shard, in order. It takes no memory.
    pub fn prior(&self) -> &Row<Packet>
        ensures { result.now ≡ self.now.me.prior }
    {
        &self.prior
    }

    pub(crate) fn is_normal(&self) -> bool
        ensures { result ≡ is_normal self.now.state.status }
    {
        matches!(self.status, ReplicaStatus::Normal)
    }

    /// Whether it is the learner of the view.
    pub(crate) fn is_learner(&self, view: View) -> bool
        ensures { result ≡ is_learner self.now.me view }
    {
        self.replica == learner(view, self.config.f())
    }

    /// The learner of the view, in the own shard.
    pub(crate) fn learner_node(&self, view: View) -> Node
        ensures { result ≡ learner_node self.now.me view }
    {
        Node::Replica(self.shard, learner(view, self.config.f()))
    }

    /// Whether it takes part in its view and isn't the learner.
    pub(crate) fn follows(&self) -> bool
        ensures { result ≡ follows self.now.me self.now.state }
    {
        self.is_normal() && !self.is_learner(self.tally.view())
    }

    /// Whether it takes part in its view as the learner.
    pub(crate) fn leads(&self) -> bool
        ensures { result ≡ leads self.now.me self.now.state }
    {
        self.is_normal() && self.is_learner(self.tally.view())
    }

    /// Goes into a view that hasn't begun.
    #[tactic(auto, unfolding(eris_rules::specs::Views::entered, eris_view::specs::ViewTallies::no_parts, eris_view::specs::AckTallies::no_acks))]
    pub(crate) fn enter(&mut self, view: View)
        ensures { self.new ≡ record self.old { state = entered self.old.state view } }
    {
        self.status = ReplicaStatus::Changing;
        self.tally = ViewTally::new(self.alloc, view, self.config.f());
        self.acks = AckTally::new(self.config.f());
    }

    /// Takes part in its view from here on, and speaks anew for all that isn't settled.
    #[tactic(auto, unfolding(eris_rules::specs::Views::became_normal, eris_view::specs::ViewTallies::no_parts, eris_view::specs::AckTallies::no_acks))]
    pub(crate) fn become_normal(&mut self)
        ensures { self.new ≡ record self.old { state = became_normal self.old.state } }
    {
        self.status = ReplicaStatus::Normal;
        self.spoken = self.settled;
        self.asked = None;
        self.tally = ViewTally::new(self.alloc, self.tally.view(), self.config.f());
        self.acks = AckTally::new(self.config.f());
        self.kept = None;
    }

    /// Settles up to the number.
    pub(crate) fn settle(&mut self, number: u32)
        ensures { self.new ≡ record self.old { state = record self.old.state { settled = number } } }
    {
        self.settled = number;
    }

    /// Notes the part of another replica, in place of an earlier one.
    #[tactic(auto, using(crate::proofs::Kept::kept), unfolding(eris_view::specs::ViewTallies::note_part))]
    pub(crate) fn note_part(&mut self, replica: ReplicaId, part: Part) -> Result<(), NoMemory>
        requires { IsOfOwn self.old.epoch self.old.me.shard part }
        ensures { OnOk result (self.new ≡ record self.old { state = record self.old.state { noted = with_part self.old.state.noted replica part } }) }
    {
        self.tally.note(replica, part)
    }

    /// Whether it and the replicas whose parts it noted are a quorum.
    #[tactic(auto, using(crate::proofs::Kept::kept))]
    pub(crate) fn is_ready(&self) -> bool
        ensures { result ≡ is_ready (view_tally self.now.me self.now.state) self.now.me.replica }
    {
        self.tally.ready(self.replica)
    }

    /// Joins the noted parts to its own.
    #[tactic(auto, using(crate::proofs::Kept::kept))]
    pub(crate) fn join_noted(&mut self) -> Result<(), NoMemory>
        ensures { OnOk result (self.new ≡ record self.old { state = record self.old.state { part = union_of self.old.state.noted self.old.state.part } }) }
    {
        let mut part = self.part.copy(self.alloc)?;
        self.tally.union(&mut part)?;
        self.part = part;
        self.kept = None;
        Ok(())
    }

    /// Joins a part to its own.
    #[tactic(auto, using(crate::proofs::Kept::kept), unfolding(eris_log::specs::Parts::merge))]
    pub(crate) fn merge_part(&mut self, part: &Part) -> Result<(), NoMemory>
        requires { IsOfOwn self.old.epoch self.old.me.shard part.now }
        ensures { OnOk result (self.new ≡ record self.old { state = record self.old.state { part = merge self.old.state.part part.now } }) }
    {
        self.kept = None;
        self.part.merge(part)
    }

    /// Notes the length of another replica.
    #[tactic(auto, unfolding(eris_view::specs::AckTallies::note_length))]
    pub(crate) fn note_ack(&mut self, replica: ReplicaId, length: u32)
        requires { replica.0 < 2 * self.old.me.config.f + 1 }
        ensures { self.new ≡ record self.old { state = record self.old.state { acks = with_ack self.old.state.acks replica length } } }
    {
        self.acks.note(replica, length);
    }

    /// Holds a packet of the epoch that names the shard.
    #[tactic(auto, using(crate::proofs::Kept::kept))]
    pub(crate) fn hold(&mut self, packet: Packet) -> Result<(), NoMemory>
        requires epoch { packet.stamp.epoch ≡ self.old.epoch }
        requires names { IsSome (number_in packet.stamp.places self.old.me.shard) }
        ensures { OnOk result (self.new ≡ record self.old { state = record self.old.state { part = hold self.old.state.part packet } }) }
    {
        let kept = kept_beside(self.kept.take(), self.shard, &packet);
        self.part.hold(packet)?;
        self.kept = kept;
        Ok(())
    }

    /// Drops a place of the epoch for a time.
    #[tactic(auto, unfolding(eris_log::specs::Parts::mark_temp))]
    pub(crate) fn mark_temp(&mut self, place: Place) -> Result<(), NoMemory>
        requires { place.epoch ≡ self.old.epoch }
        ensures { OnOk result (self.new ≡ record self.old { state = record self.old.state { part = mark_temp self.old.state.part place } }) }
    {
        self.kept = None;
        self.part.mark_temp(place)
    }

    /// Notes that the places of a stamp of the epoch are found.
    #[tactic(auto, unfolding(eris_log::specs::Parts::mark_found))]
    pub(crate) fn mark_found(&mut self, stamp: &Stamp) -> Result<(), NoMemory>
        requires { stamp.now.epoch ≡ self.old.epoch }
        ensures { OnOk result (self.new ≡ record self.old { state = record self.old.state { part = mark_found self.old.state.part stamp.now } }) }
    {
        self.kept = None;
        self.part.mark_found(stamp)
    }

    /// Drops a place of the epoch for good.
    #[tactic(auto, unfolding(eris_log::specs::Parts::mark_dropped))]
    pub(crate) fn mark_dropped(&mut self, place: Place) -> Result<(), NoMemory>
        requires { place.epoch ≡ self.old.epoch }
        ensures { OnOk result (self.new ≡ record self.old { state = record self.old.state { part = mark_dropped self.old.state.part place } }) }
    {
        self.kept = None;
        self.part.mark_dropped(place)
    }
}
