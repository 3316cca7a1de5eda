//! What comes to a node as bytes: those of a sent message, which the node reads, and noise, in which it finds no
//! message.
ghost use Rattle.std.specs.Prelude.{◌≡◌, ◌<◌, None, Some, false, length, option_map, slice_get, true, IfErr, OnErr, OnOk};
ghost use Rattle.eris_msg.specs.declared.message.Message.{Message};
ghost use Rattle.eris_msg.specs.declared.outgoing.Outgoing.{Outgoing};
ghost use Rattle.eris_msg.specs.Spellings.{IsSpelling};
ghost use Rattle.eris_network.specs.Limits.{IsMetBy};
ghost use Rattle.eris_rules.specs.declared.coord_input.CoordInput.TheVariants as orders;
ghost use Rattle.eris_rules.specs.declared.replica_input.ReplicaInput.TheVariants as inputs;
ghost use Rattle.eris_rules.specs.Clients.{client_step};
ghost use Rattle.eris_rules.specs.Happenings.{arrives, client_acts, coordinator_takes, replica_takes, sequencer_takes};
ghost use Rattle.eris_rules.specs.Refusals.{limit_met};
ghost use Rattle.eris_world.specs.Becoming.{Becomes};

use crate::acting::note;
use crate::world::World;
use eris_base::{ClientId, Epoch, NoMemory, Node, ReplicaId, ShardId};
use eris_network::SendFault;

impl World {
    /// The sent message of this number comes to its node; an Ask to the sequencer of the epoch that is named, or
    /// else to the newest.
    pub(crate) fn come_to(
        &mut self,
        number: u32,
        epoch: Option<Epoch>,
        to: Node,
    ) -> Result<(), SendFault>
        requires unspent { self.old.spent ≡ false }
        requires sent { number < length self.old.state.sent }
        requires to { Some to ≡ option_map (λ one. one.to) (slice_get self.old.state.sent number) }
        ensures ok { OnOk result (Becomes self.old self.new (arrives self.old.config self.old.state epoch (slice_get self.old.state.sent number))) }
        ensures err { IfErr result (IsMetBy (arrives self.old.config self.old.state epoch (slice_get self.old.state.sent number)).sent) }
        ensures spent { OnErr result (self.new.spent ≡ true) }
    {
        match to {
            Node::Sequencer => {
                let newest = self.sequencers.newest();
                self.sequencer_hears(epoch.unwrap_or(newest), number)
            }
            Node::Coordinator => self.coordinator_hears(number),
            Node::Replica(shard, replica) => self.replica_hears(shard, replica, number),
            Node::Client(client) => self.client_hears(client, number),
        }
    }

    /// The sequencers take messages alone: the message is read for them.
    fn sequencer_hears(&mut self, epoch: Epoch, number: u32) -> Result<(), SendFault>
        requires unspent { self.old.spent ≡ false }
        requires sent { number < length self.old.state.sent }
        ensures ok { (one : Outgoing) → slice_get self.old.state.sent number ≡ Some one
            → OnOk result (Becomes self.old self.new (sequencer_takes self.old.config self.old.state epoch one.message)) }
        ensures err { (one : Outgoing) → slice_get self.old.state.sent number ≡ Some one
            → IfErr result (IsMetBy (sequencer_takes self.old.config self.old.state epoch one.message).sent) }
        ensures spent { OnErr result (self.new.spent ≡ true) }
    {
        match self.network.message(number) {
            Ok(message) => self.sequencer_takes(epoch, message),
            Err(NoMemory) => {
                self.spent = true;
                Err(SendFault::NoMemory)
            }
        }
    }

    fn coordinator_hears(&mut self, number: u32) -> Result<(), SendFault>
        requires unspent { self.old.spent ≡ false }
        requires sent { number < length self.old.state.sent }
        ensures ok { (one : Outgoing) → slice_get self.old.state.sent number ≡ Some one
            → OnOk result (Becomes self.old self.new (coordinator_takes self.old.config self.old.state (orders.Message one.message))) }
        ensures err { (one : Outgoing) → slice_get self.old.state.sent number ≡ Some one
            → IfErr result (IsMetBy (coordinator_takes self.old.config self.old.state (orders.Message one.message)).sent) }
        ensures spent { OnErr result (self.new.spent ≡ true) }
    {
        self.spent = true;
        let bytes = match self.network.bytes(number) {
            Some(bytes) => bytes,
            None => unreachable!(),
        };
        let sends = match self.coordinator.receive(bytes) {
            Ok(sends) => sends,
            Err(NoMemory) => return Err(SendFault::NoMemory),
        };
        match self.network.send(sends.as_slice()) {
            Ok(()) => {}
            Err(fault) => return Err(fault),
        }
        self.spent = false;
        Ok(())
    }

    /// A replica that has crashed hears nothing.
    fn replica_hears(
        &mut self,
        shard: ShardId,
        replica: ReplicaId,
        number: u32,
    ) -> Result<(), SendFault>
        requires unspent { self.old.spent ≡ false }
        requires sent { number < length self.old.state.sent }
        ensures ok { (one : Outgoing) → slice_get self.old.state.sent number ≡ Some one
            → OnOk result (Becomes self.old self.new (replica_takes self.old.config self.old.state shard replica (inputs.Message one.message))) }
        ensures err { (one : Outgoing) → slice_get self.old.state.sent number ≡ Some one
            → IfErr result (IsMetBy (replica_takes self.old.config self.old.state shard replica (inputs.Message one.message)).sent) }
        ensures spent { OnErr result (self.new.spent ≡ true) }
    {
        if self.has_crashed(shard, replica) {
            return Ok(());
        }
        self.spent = true;
        let bytes = match self.network.bytes(number) {
            Some(bytes) => bytes,
            None => unreachable!(),
        };
        let sends = match self.replicas.receive(shard, replica, bytes) {
            Ok(sends) => sends,
            Err(NoMemory) => return Err(SendFault::NoMemory),
        };
        match self.network.send(sends.as_slice()) {
            Ok(()) => {}
            Err(fault) => return Err(fault),
        }
        self.spent = false;
        Ok(())
    }

    /// What happened at the client stands in the history.
    fn client_hears(&mut self, client: ClientId, number: u32) -> Result<(), SendFault>
        requires unspent { self.old.spent ≡ false }
        requires sent { number < length self.old.state.sent }
        ensures ok { (one : Outgoing) → slice_get self.old.state.sent number ≡ Some one
            → OnOk result (Becomes self.old self.new (client_acts self.old.config self.old.state client (λ me state. client_step me state one.message))) }
        ensures err { (one : Outgoing) → slice_get self.old.state.sent number ≡ Some one
            → IfErr result (IsMetBy (client_acts self.old.config self.old.state client (λ me state. client_step me state one.message)).sent) }
        ensures spent { OnErr result (self.new.spent ≡ true) }
    {
        self.spent = true;
        let bytes = match self.network.bytes(number) {
            Some(bytes) => bytes,
            None => unreachable!(),
        };
        let told = match self.clients.receive(client, bytes) {
            Ok(told) => told,
            Err(NoMemory) => return Err(SendFault::NoMemory),
        };
        match self.network.send(told.0.as_slice()) {
            Ok(()) => {}
            Err(fault) => return Err(fault),
        }
        match note(&mut self.history, told.1) {
            Ok(()) => {}
            Err(NoMemory) => return Err(SendFault::NoMemory),
        }
        self.spent = false;
        Ok(())
    }

    /// Bytes that are no message come to a node, and nothing changes. The sequencers take messages alone, and
    /// these are none.
    pub(crate) fn hear_noise(&mut self, node: Node, bytes: &[u8]) -> Result<(), SendFault>
        requires unspent { self.old.spent ≡ false }
        requires noise { (message : Message) → IsSpelling message bytes.now → ⊥ }
        ensures ok { OnOk result (Becomes self.old self.new self.old.state) }
        ensures err { IfErr result (λ fault. fault ≡ SendFault.NoMemory) }
        ensures spent { OnErr result (self.new.spent ≡ true) }
    {
        match node {
            Node::Sequencer => {
                self.stand();
                Ok(())
            }
            Node::Coordinator => self.coordinator_noise(bytes),
            Node::Replica(shard, replica) => self.replica_noise(shard, replica, bytes),
            Node::Client(client) => self.client_noise(client, bytes),
        }
    }

    /// Nothing is done, and nothing is sent.
    fn stand(&self)
        requires { self.now.spent ≡ false }
        ensures { limit_met self.now.state.sent ≡ None }
    {
        let _ = &self.network;
    }

    fn coordinator_noise(&mut self, bytes: &[u8]) -> Result<(), SendFault>
        requires unspent { self.old.spent ≡ false }
        requires noise { (message : Message) → IsSpelling message bytes.now → ⊥ }
        ensures ok { OnOk result (Becomes self.old self.new self.old.state) }
        ensures err { IfErr result (λ fault. fault ≡ SendFault.NoMemory) }
        ensures spent { OnErr result (self.new.spent ≡ true) }
    {
        self.spent = true;
        match self.coordinator.receive(bytes) {
            Ok(_nothing) => {}
            Err(NoMemory) => return Err(SendFault::NoMemory),
        }
        self.spent = false;
        Ok(())
    }

    fn replica_noise(
        &mut self,
        shard: ShardId,
        replica: ReplicaId,
        bytes: &[u8],
    ) -> Result<(), SendFault>
        requires unspent { self.old.spent ≡ false }
        requires noise { (message : Message) → IsSpelling message bytes.now → ⊥ }
        ensures ok { OnOk result (Becomes self.old self.new self.old.state) }
        ensures err { IfErr result (λ fault. fault ≡ SendFault.NoMemory) }
        ensures spent { OnErr result (self.new.spent ≡ true) }
    {
        if self.has_crashed(shard, replica) {
            self.stand();
            return Ok(());
        }
        self.spent = true;
        match self.replicas.receive(shard, replica, bytes) {
            Ok(_nothing) => {}
            Err(NoMemory) => return Err(SendFault::NoMemory),
        }
        self.spent = false;
        Ok(())
    }

    fn client_noise(&mut self, client: ClientId, bytes: &[u8]) -> Result<(), SendFault>
        requires unspent { self.old.spent ≡ false }
        requires noise { (message : Message) → IsSpelling message bytes.now → ⊥ }
        ensures ok { OnOk result (Becomes self.old self.new self.old.state) }
        ensures err { IfErr result (λ fault. fault ≡ SendFault.NoMemory) }
        ensures spent { OnErr result (self.new.spent ≡ true) }
    {
        self.spent = true;
        match self.clients.receive(client, bytes) {
            Ok(_nothing) => {}
            Err(NoMemory) => return Err(SendFault::NoMemory),
        }
        self.spent = false;
        Ok(())
    }
}
