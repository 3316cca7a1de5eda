ghost use Rattle.std.specs.Prelude.{◌≡◌, IsTrue, IsFalse, IfOk, IfErr, OnOk, OnErr, nat_lt, length};
ghost use Rattle.eris_txn.specs.Bodies.{participants_of};

use crate::counters::{counter_of, next_stamp, set_all};
use crate::stamp_fault::StampFault;
use eris_base::{ClientId, Config, Epoch, ShardId, TxnId};
use eris_txn::{Body, Packet, participants};
use std::alloc::Global;
use std::marker::Model;

/// The sequencer of one epoch: for each shard, how many packets it stamped for it. Contracts see it as the
/// epoch and one counter for each shard of its config.
#[derive(Debug, Drop)]
pub struct Sequencer {
    epoch: Epoch,
    shards: u8,
    counters: [u32; 64],
}

impl Model for Sequencer {
    ghost use Rattle.std.specs.Prelude.{◌≤◌, take};
    ghost use Rattle.eris_sequencer.specs.SequencerValues.{SequencerValue};

    ghost Value = { SequencerValue };

    ghost view = { λ s. record { epoch = s.epoch; counters = take s.shards s.counters } };

    ghost invariant = { λ s. s.shards ≤ 64 };
}

impl Sequencer {
    ghost use Rattle.eris_sequencer.specs.Stamps.{new_sequencer, counter_of, is_full, has_counters, next_packet, after_stamp, AreRaised};

    /// The sequencer of the epoch, with each counter at 0. It takes no memory.
    #[tactic(auto, using(crate::proofs::StampLaws::counters_start), unfolding(crate::specs::Stamps::new_sequencer))]
    pub fn new(epoch: Epoch, config: Config) -> Sequencer
        ensures { result ≡ new_sequencer epoch config.shards }
    {
        Sequencer {
            epoch,
            shards: config.shards(),
            counters: [0; 64],
        }
    }

    /// How many packets were stamped for the shard; 0 for a shard outside the config. It takes no memory.
    pub fn counter(&self, shard: ShardId) -> u32
        ensures { result ≡ counter_of self.now.counters shard }
    {
        counter_of(self.counters(), shard)
    }

    /// Raises the counter of each participant of the body by one, and no other, in one step. The stamp of the
    /// packet names exactly the participants, with their new numbers. It needs a body with at least one shard,
    /// whose shards are in the config.
    ///
    /// # Errors
    ///
    /// `Full` exactly where the counter of a participant stands at 4,294,967,295. `NoMemory` where an
    /// allocation was refused. After either the sequencer is as before.
    #[tactic(auto, using(crate::proofs::StampLaws::stamp_laws), unfolding(crate::specs::Stamps::next_packet, crate::specs::Stamps::next_stamp, crate::specs::Stamps::after_stamp))]
    pub fn stamp(
        &mut self,
        alloc: Global,
        id: TxnId,
        asker: ClientId,
        body: Body,
    ) -> Result<Packet, StampFault>
        requires some { IsTrue (nat_lt 0 (length (participants_of body))) }
        requires shards { IsTrue (has_counters self.old.counters (participants_of body)) }
        ensures packet { IfOk result (λ packet. packet ≡ next_packet self.old id asker body) }
        ensures ok { OnOk result (self.new ≡ after_stamp self.old (participants_of body)) }
        ensures raised { OnOk result (AreRaised self.old.counters self.new.counters (participants_of body)) }
        ensures free { OnOk result (IsFalse (is_full self.old.counters (participants_of body))) }
        ensures full { IfErr result (λ fault. fault ≡ StampFault.Full
            → IsTrue (is_full self.old.counters (participants_of body))) }
        ensures err { OnErr result (self.new ≡ self.old) }
    {
        let shards = participants(alloc, &body)?;
        let stamp = next_stamp(alloc, self.epoch, self.counters(), shards.as_slice())?;
        set_all(&mut self.counters, stamp.places());
        Ok(Packet {
            stamp,
            id,
            asker,
            body,
        })
    }

    fn counters(&self) -> &[u32]
        ensures { result.now ≡ self.now.counters }
    {
        &self.counters[..self.shards as usize]
    }
}
