ghost use Rattle.std.specs.Prelude.{◌≡◌, [], false, true, IfOk, OnOk, OnErr};
ghost use Rattle.eris_in_place.specs.MessageRanges.{SendsFit};
ghost use Rattle.eris_msg.specs.declared.message.Message.{Message};
ghost use Rattle.eris_msg.specs.Spellings.{IsSpelling};
ghost use Rattle.eris_rules.specs.declared.replica_input.ReplicaInput.TheVariants as inputs;
ghost use Rattle.eris_rules.specs.Good.{settled_log};
ghost use Rattle.eris_rules.specs.Known.{knows_shard, knows_replica};
ghost use Rattle.eris_rules.specs.ReplicaStates.{first_state};
ghost use Rattle.eris_rules.specs.Replicas.{replica_step};
ghost use Rattle.eris_replica.specs.ReplicaValues.{InputFits};

use crate::epochs::Epochs;
use eris_base::{Config, Epoch, NoMemory, ReplicaId, Row, ShardId, View};
use eris_log::Part;
use eris_msg::{DecodeFault, Outgoing, decode};
use eris_rules::{ReplicaInput, ReplicaStatus};
use eris_txn::Packet;
use std::alloc::Global;
use std::marker::Model;

/// A replica of a shard. It holds the packets of its shard, tells clients of them, and keeps with the other
/// replicas of the shard what was told, over views and epochs. Contracts see it as the rules do, beside
/// whether it is spent.
#[derive(Debug, Drop)]
pub struct Replica {
    alloc: Global,
    epochs: Epochs,
    spent: bool,
}

impl Model for Replica {
    ghost use Rattle.std.specs.Prelude.{◌≡◌, false};
    ghost use Rattle.eris_law_range.specs.Fitting.{ReplicaFits};
    ghost use Rattle.eris_replica.specs.ReplicaValues.{ReplicaValue};

    ghost Value = { ReplicaValue };

    ghost view = { λ r. record { me = r.epochs.me; state = r.epochs.state; spent = r.spent } };

    ghost invariant = { λ r. r.spent ≡ false → ReplicaFits r.epochs.me r.epochs.state };
}

impl Replica {
    /// The replica in epoch 0, view 0, which knows nothing yet. It needs a shard and a replica of the config,
    /// and takes no memory.
    pub fn new(alloc: Global, config: Config, shard: ShardId, replica: ReplicaId) -> Replica
        requires shard { knows_shard config shard ≡ true }
        requires replica { knows_replica config replica ≡ true }
        ensures { result ≡ record { me = record { config = config; shard = shard; replica = replica }; state = first_state shard; spent = false } }
    {
        Replica {
            alloc,
            epochs: Epochs::new(alloc, config, shard, replica),
            spent: false,
        }
    }

    /// Takes an input and answers what is sent, in order: the rules' step of a replica. A message that is out
    /// of place, and one for which the rules have nothing, changes nothing and sends nothing.
    ///
    /// It needs a replica that isn't spent, and a message whose fields are in their ranges.
    ///
    /// # Errors
    ///
    /// After [`NoMemory`] the replica is spent.
    pub fn step(&mut self, input: ReplicaInput) -> Result<Row<Outgoing>, NoMemory>
        requires unspent { self.old.spent ≡ false }
        requires ranges { InputFits input }
        ensures ok { IfOk result (λ sends. record { state = self.new.state; sends = sends }
            ≡ replica_step self.old.me self.old.state input) }
        ensures fits { IfOk result (λ sends. SendsFit sends) }
        ensures stays { OnOk result (self.new ≡ record self.old { state = self.new.state }) }
        ensures err { OnErr result (self.new.spent ≡ true) }
    {
        self.spent = true;
        let sends = self.epochs.step(input)?;
        self.spent = false;
        Ok(sends)
    }

    /// Takes the message that the bytes spell, as [`step`](Replica::step) does. Bytes that spell none change
    /// nothing and send nothing. It needs a replica that isn't spent.
    ///
    /// # Errors
    ///
    /// After [`NoMemory`] the replica is spent.
    pub fn receive(&mut self, bytes: &[u8]) -> Result<Row<Outgoing>, NoMemory>
        requires { self.old.spent ≡ false }
        ensures message { (message : Message) → IsSpelling message bytes.now → IfOk result (λ sends.
            record { state = self.new.state; sends = sends } ≡ replica_step self.old.me self.old.state (inputs.Message message)) }
        ensures noise { ((message : Message) → IsSpelling message bytes.now → ⊥) → IfOk result (λ sends.
            (sends ≡ []) × (self.new.state ≡ self.old.state)) }
        ensures fits { IfOk result (λ sends. SendsFit sends) }
        ensures stays { OnOk result (self.new ≡ record self.old { state = self.new.state }) }
        ensures err { OnErr result (self.new.spent ≡ true) }
    {
        match decode(self.alloc, bytes) {
            Ok(message) => self.step(ReplicaInput::Message(message)),
            Err(DecodeFault::Bad { .. }) => Ok(Row::new(self.alloc)),
            Err(DecodeFault::NoMemory) => {
                self.spent = true;
                Err(NoMemory)
            }
        }
    }

    /// Whether an allocation was refused in a step. Neither `step` nor `receive` may be called then. It takes
    /// no memory.
    pub fn is_spent(&self) -> bool
        ensures { result ≡ self.now.spent }
    {
        self.spent
    }

    /// The epoch that it is in. It takes no memory.
    pub fn epoch(&self) -> Epoch
        ensures { result ≡ self.now.state.epoch }
    {
        self.epochs.member.epoch()
    }

    /// The highest epoch that it promised to wait for; its own where it waits for none. It takes no memory.
    pub fn promised(&self) -> Epoch
        ensures { result ≡ self.now.state.promised }
    {
        self.epochs.promised
    }

    /// The view that it is in, or on its way to. It takes no memory.
    pub fn view(&self) -> View
        ensures { result ≡ self.now.state.inner.view }
    {
        self.epochs.member.view()
    }

    /// Whether it takes part in its view. It takes no memory.
    pub fn status(&self) -> ReplicaStatus
        ensures { result ≡ self.now.state.inner.status }
    {
        self.epochs.member.status()
    }

    /// What it knows of its epoch. It takes no memory.
    pub fn part(&self) -> &Part
        ensures { result.now ≡ self.now.state.inner.part }
    {
        self.epochs.member.part()
    }

    /// The number up to which its log is settled. It takes no memory.
    pub fn settled(&self) -> u32
        ensures { result ≡ self.now.state.inner.settled }
    {
        self.epochs.member.settled()
    }

    /// The packets of its closed epochs, then those at the places up to its settled number whose entry isn't
    /// dropped.
    ///
    /// # Errors
    ///
    /// [`NoMemory`] where an allocation was refused; the replica is not spent by that.
    pub fn settled_log(&self) -> Result<Row<Packet>, NoMemory>
        ensures { IfOk result (λ log. log ≡ settled_log self.now.state) }
    {
        self.epochs.settled_log()
    }
}
