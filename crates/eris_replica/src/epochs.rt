//! A replica's epochs: the one that it is in, and the highest one that it promised to wait for.
ghost use Rattle.std.specs.Prelude.{◌≡◌, IfOk, IsTrue};
ghost use Rattle.eris_base.specs.ConfigLimits.{IsConfig};
ghost use Rattle.eris_rules.specs.ReplicaStates.{begun, first_state, is_stopped};
ghost use Rattle.eris_rules.specs.Replicas.{takes_part_in, asks_start, later_txn, may_promise, promises, epoch_ask_row, may_begin, start_epoch_row};
ghost use Rattle.eris_replica.specs.ReplicaValues.{after};

use eris_base::{Config, Dup, Epoch, NoMemory, Node, ReplicaId, Row, ShardId};
use eris_member::EpochMember;
use eris_msg::{Message, Outgoing};
use eris_txn::Packet;
use std::alloc::Global;
use std::marker::Model;

/// A replica's state over all epochs. Contracts see it as the rules do.
#[derive(Debug, Drop)]
pub struct Epochs {
    pub alloc: Global,
    /// The highest epoch that it promised to wait for.
    pub promised: Epoch,
    /// Its state in the epoch that it is in.
    pub member: EpochMember,
}

impl Model for Epochs {
    ghost use Rattle.eris_replica.specs.ReplicaValues.{EpochsValue};

    ghost Value = { EpochsValue };

    ghost view = { λ r. record {
      me = record { config = r.member.me.config; shard = r.member.me.shard; replica = r.member.me.replica };
      state = record { epoch = r.member.epoch; promised = r.promised; prior = r.member.me.prior; inner = r.member.state };
    } };
}

impl Epochs {
    /// A replica in epoch 0. It takes no memory.
    #[tactic(auto, unfolding(eris_rules::specs::ReplicaStates::first_state, eris_rules::specs::ReplicaStates::begun))]
    pub fn new(alloc: Global, config: Config, shard: ShardId, replica: ReplicaId) -> Epochs
        ensures exact { result ≡ record { me = record { config = config; shard = shard; replica = replica }; state = first_state shard } }
        ensures config { IsConfig config }
    {
        Epochs {
            alloc,
            promised: Epoch(0),
            member: EpochMember::new(alloc, config, shard, replica, Epoch(0), Row::new(alloc)),
        }
    }

    /// Whether it promised a higher epoch than its own.
    pub fn is_stopped(&self) -> bool
        ensures { result ≡ is_stopped self.now.state }
    {
        self.member.epoch().0 < self.promised.0
    }

    /// Whether the epoch is its own and it takes part in it.
    pub fn takes_part_in(&self, epoch: Epoch) -> bool
        ensures exact { result ≡ takes_part_in self.now.state epoch }
        ensures own { IsTrue result → epoch ≡ self.now.state.epoch }
    {
        epoch == self.member.epoch() && !self.is_stopped()
    }

    /// Tells the coordinator of an epoch that it isn't in.
    #[tactic(auto, unfolding(eris_rules::specs::Replicas::asks_start))]
    pub fn ask_start(&self, epoch: Epoch) -> Result<Row<Outgoing>, NoMemory>
        ensures { IfOk result (λ sends. (self.now, sends) ≡ after self.now (asks_start self.now.me self.now.state epoch)) }
    {
        let mut sends = Row::new(self.alloc);
        sends.push(Outgoing {
            to: Node::Coordinator,
            message: Message::NewEpoch {
                shard: self.member.shard(),
                replica: self.member.replica(),
                epoch,
            },
        })?;
        Ok(sends)
    }

    /// A packet of an epoch above all that it promised: a new sequencer has begun.
    #[tactic(auto, unfolding(eris_rules::specs::Replicas::later_txn))]
    pub fn later_txn(&self, epoch: Epoch) -> Result<Row<Outgoing>, NoMemory>
        ensures { IfOk result (λ sends. (self.now, sends) ≡ after self.now (later_txn self.now.me self.now.state epoch)) }
    {
        if self.promised.0 < epoch.0 {
            return self.ask_start(epoch);
        }
        Ok(Row::new(self.alloc))
    }

    /// The coordinator asks it to stop for a higher epoch.
    #[tactic(auto, unfolding(eris_rules::specs::Replicas::epoch_ask_row))]
    pub fn epoch_ask(&mut self, epoch: Epoch) -> Result<Row<Outgoing>, NoMemory>
        ensures { IfOk result (λ sends. (self.new, sends) ≡ after self.old (epoch_ask_row self.old.me self.old.state epoch)) }
    {
        if self.may_promise(epoch) {
            return self.promise(epoch);
        }
        Ok(Row::new(self.alloc))
    }

    #[tactic(auto, unfolding(eris_rules::specs::Replicas::may_promise))]
    fn may_promise(&self, epoch: Epoch) -> bool
        ensures { result ≡ may_promise self.now.state epoch }
    {
        self.promised.0 < epoch.0 || (epoch.0 == self.promised.0 && self.member.epoch().0 < epoch.0)
    }

    /// It stops, and gives the coordinator what it knows.
    #[tactic(auto, unfolding(eris_rules::specs::Replicas::promises))]
    fn promise(&mut self, epoch: Epoch) -> Result<Row<Outgoing>, NoMemory>
        ensures { IfOk result (λ sends. (self.new, sends) ≡ after self.old (promises self.old.me self.old.state epoch)) }
    {
        let part = self.member.part().copy(self.alloc)?;
        self.promised = epoch;
        let mut sends = Row::new(self.alloc);
        sends.push(Outgoing {
            to: Node::Coordinator,
            message: Message::EpochState {
                replica: self.member.replica(),
                epoch,
                part,
            },
        })?;
        Ok(sends)
    }

    /// The coordinator begins an epoch, with the shard's packets of the epochs before.
    #[tactic(auto, unfolding(eris_rules::specs::Replicas::start_epoch_row))]
    pub fn start_epoch(
        &mut self,
        epoch: Epoch,
        shard: ShardId,
        packets: Row<Packet>,
    ) -> Result<Row<Outgoing>, NoMemory>
        ensures { IfOk result (λ sends. (self.new, sends) ≡ after self.old
            (start_epoch_row self.old.me self.old.state epoch shard packets)) }
    {
        if self.may_begin(epoch, shard) {
            self.begin(epoch, packets);
        }
        Ok(Row::new(self.alloc))
    }

    #[tactic(auto, unfolding(eris_rules::specs::Replicas::may_begin))]
    fn may_begin(&self, epoch: Epoch, shard: ShardId) -> bool
        ensures { result ≡ may_begin self.now.me self.now.state epoch shard }
    {
        shard.0 == self.member.shard().0
            && self.member.epoch().0 < epoch.0
            && self.promised.0 <= epoch.0
    }

    #[tactic(auto, unfolding(eris_rules::specs::ReplicaStates::begun))]
    fn begin(&mut self, epoch: Epoch, packets: Row<Packet>)
        ensures { self.new ≡ record self.old { state = begun epoch self.old.me.shard packets } }
    {
        self.promised = epoch;
        self.member = EpochMember::new(
            self.alloc,
            self.member.config(),
            self.member.shard(),
            self.member.replica(),
            epoch,
            packets,
        );
    }
}
