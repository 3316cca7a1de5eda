//! What each kind of node does, other than on the bytes that come to it, and what becomes of the world by it.
ghost use Rattle.std.specs.Prelude.{◌≡◌, false, true, IfErr, OnErr, OnOk};
ghost use Rattle.eris_coord.specs.Fitting.{InputFits as CoordInputFits};
ghost use Rattle.eris_msg.specs.Spellings.{message_fits};
ghost use Rattle.eris_network.specs.Limits.{IsMetBy};
ghost use Rattle.eris_nodes.specs.Acts.{acts};
ghost use Rattle.eris_nodes.specs.Allowed.{CanActAt};
ghost use Rattle.eris_replica.specs.ReplicaValues.{InputFits};
ghost use Rattle.eris_rules.specs.Happenings.{client_acts, coordinator_takes, replica_takes, sequencer_takes};
ghost use Rattle.eris_rules.specs.Worlds.{has_crashed, with_event};
ghost use Rattle.eris_world.specs.Becoming.{Becomes};

use crate::world::World;
use eris_base::{ClientId, Epoch, NoMemory, ReplicaId, Row, ShardId};
use eris_msg::Message;
use eris_network::SendFault;
use eris_nodes::{Act, has_crashed};
use eris_rules::{CoordInput, ReplicaInput};
use eris_txn::HistoryEvent;

impl World {
    /// A replica takes an input; one that has crashed steps no more.
    pub(crate) fn replica_takes(
        &mut self,
        shard: ShardId,
        replica: ReplicaId,
        input: ReplicaInput,
    ) -> Result<(), SendFault>
        requires unspent { self.old.spent ≡ false }
        requires input { InputFits input }
        ensures ok { OnOk result (Becomes self.old self.new (replica_takes self.old.config self.old.state shard replica input)) }
        ensures err { IfErr result (IsMetBy (replica_takes self.old.config self.old.state shard replica input).sent) }
        ensures spent { OnErr result (self.new.spent ≡ true) }
    {
        if self.has_crashed(shard, replica) {
            leave(input);
            return Ok(());
        }
        self.spent = true;
        let sends = match self.replicas.step(shard, replica, input) {
            Ok(sends) => sends,
            Err(NoMemory) => return Err(SendFault::NoMemory),
        };
        match self.network.send(sends.as_slice()) {
            Ok(()) => {}
            Err(fault) => return Err(fault),
        }
        self.spent = false;
        Ok(())
    }

    /// The coordinator takes an input.
    pub(crate) fn coordinator_takes(&mut self, input: CoordInput) -> Result<(), SendFault>
        requires unspent { self.old.spent ≡ false }
        requires input { CoordInputFits input }
        ensures ok { OnOk result (Becomes self.old self.new (coordinator_takes self.old.config self.old.state input)) }
        ensures err { IfErr result (IsMetBy (coordinator_takes self.old.config self.old.state input).sent) }
        ensures spent { OnErr result (self.new.spent ≡ true) }
    {
        self.spent = true;
        let sends = match self.coordinator.step(input) {
            Ok(sends) => sends,
            Err(NoMemory) => return Err(SendFault::NoMemory),
        };
        match self.network.send(sends.as_slice()) {
            Ok(()) => {}
            Err(fault) => return Err(fault),
        }
        self.spent = false;
        Ok(())
    }

    /// The sequencer of an epoch takes a message; one that was replaced goes on stamping.
    pub(crate) fn sequencer_takes(
        &mut self,
        epoch: Epoch,
        message: Message,
    ) -> Result<(), SendFault>
        requires unspent { self.old.spent ≡ false }
        requires fits { message_fits message ≡ true }
        ensures ok { OnOk result (Becomes self.old self.new (sequencer_takes self.old.config self.old.state epoch message)) }
        ensures err { IfErr result (IsMetBy (sequencer_takes self.old.config self.old.state epoch message).sent) }
        ensures spent { OnErr result (self.new.spent ≡ true) }
    {
        self.spent = true;
        // Its contract tells what the sequencers keep.
        let _newest = self.sequencers.newest();
        let _shards = self.config.shards();
        let sends = match self.sequencers.ask(epoch, message) {
            Ok(sends) => sends,
            Err(NoMemory) => return Err(SendFault::NoMemory),
        };
        match self.network.send(sends.as_slice()) {
            Ok(()) => {}
            Err(fault) => return Err(fault),
        }
        self.spent = false;
        Ok(())
    }

    /// A client acts of itself, and what happened at it stands in the history.
    pub(crate) fn client_acts(&mut self, client: ClientId, act: Act) -> Result<(), SendFault>
        requires unspent { self.old.spent ≡ false }
        requires can { CanActAt self.old.config self.old.state.clients client act }
        ensures ok { OnOk result (Becomes self.old self.new (client_acts self.old.config self.old.state client (acts act))) }
        ensures err { IfErr result (IsMetBy (client_acts self.old.config self.old.state client (acts act)).sent) }
        ensures spent { OnErr result (self.new.spent ≡ true) }
    {
        self.spent = true;
        let told = match self.clients.act(client, act) {
            Ok(told) => told,
            Err(NoMemory) => return Err(SendFault::NoMemory),
        };
        match self.network.send(told.0.as_slice()) {
            Ok(()) => {}
            Err(fault) => return Err(fault),
        }
        match note(&mut self.history, told.1) {
            Ok(()) => {}
            Err(NoMemory) => return Err(SendFault::NoMemory),
        }
        self.spent = false;
        Ok(())
    }

    /// Whether the replica has crashed.
    pub(crate) fn has_crashed(&self, shard: ShardId, replica: ReplicaId) -> bool
        ensures { result ≡ has_crashed self.now.state shard replica }
    {
        has_crashed(self.crashed.as_slice(), shard, replica)
    }
}

/// What happened, if anything did, stands in the history.
pub(crate) fn note(
    history: &mut Row<HistoryEvent>,
    event: Option<HistoryEvent>,
) -> Result<(), NoMemory>
    ensures { OnOk result (history.new ≡ with_event history.old event) }
{
    match event {
        Some(event) => history.push(event),
        None => Ok(()),
    }
}

/// Nobody takes the input.
fn leave(_input: ReplicaInput) {}
