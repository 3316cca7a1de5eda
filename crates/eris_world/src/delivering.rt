//! What the network does, and what an event does.
ghost use Rattle.std.specs.Prelude.{◌≡◌, ◌<◌, ◌++◌, ◌∷◌, ◌==◌, [], None, false, length, true, IfErr, OnErr, OnOk};
ghost use Rattle.eris_network.specs.Limits.{IsMetBy};
ghost use Rattle.eris_rules.specs.Happenings.{aborts_plan, delivers, flows, happens, loses, plan_of_transaction, submitted_at};
ghost use Rattle.eris_rules.specs.Refusals.{cause};
ghost use Rattle.eris_rules.specs.Worlds.{no_longer_waiting};
ghost use Rattle.eris_sequencer.specs.Sequencers.{replace};
ghost use Rattle.eris_world.specs.Becoming.{Becomes};
ghost use Rattle.eris_world.specs.WorldValues.{CanGoOn, EventFits};

use crate::world::World;
use eris_base::{ClientId, Epoch, NoMemory, ReplicaId, ShardId, TxnId};
use eris_event::Event;
use eris_network::SendFault;
use eris_nodes::Act;
use eris_rules::{CoordInput, ReplicaInput};
use eris_txn::Txn;

impl World {
    /// The message of this number waits no more.
    fn take(&mut self, number: u32)
        requires unspent { self.old.spent ≡ false }
        requires sent { number < length self.old.state.sent }
        ensures { Becomes self.old self.new (no_longer_waiting self.old.state number) }
    {
        self.network.take(number);
    }

    /// The message of this number comes to its node, for the first time or again.
    fn deliver(&mut self, number: u32, epoch: Option<Epoch>) -> Result<(), SendFault>
        requires unspent { self.old.spent ≡ false }
        requires sent { number < length self.old.state.sent }
        ensures ok { OnOk result (Becomes self.old self.new (delivers self.old.config self.old.state number epoch)) }
        ensures err { IfErr result (IsMetBy (delivers self.old.config self.old.state number epoch).sent) }
        ensures spent { OnErr result (self.new.spent ≡ true) }
    {
        let to = match self.network.addressee(number) {
            Some(to) => to,
            None => unreachable!(),
        };
        self.take(number);
        self.come_to(number, epoch, to)
    }

    /// The lowest waiting message is delivered, if one waits.
    fn flow(&mut self) -> Result<(), SendFault>
        requires { self.old.spent ≡ false }
        ensures ok { OnOk result (Becomes self.old self.new (flows self.old.config self.old.state self.old.state.waiting)) }
        ensures err { IfErr result (IsMetBy (flows self.old.config self.old.state self.old.state.waiting).sent) }
        ensures spent { OnErr result (self.new.spent ≡ true) }
    {
        match self.network.lowest() {
            Some(number) => self.deliver(number, None),
            None => Ok(()),
        }
    }

    /// The lowest waiting message waits no more, if one waits.
    fn lose(&mut self)
        requires { self.old.spent ≡ false }
        ensures { Becomes self.old self.new (loses self.old.state self.old.state.waiting) }
    {
        if let Some(number) = self.network.lowest() {
            self.take(number);
        }
    }

    /// The replica stops for good.
    fn crash(&mut self, shard: ShardId, replica: ReplicaId) -> Result<(), SendFault>
        requires { self.old.spent ≡ false }
        ensures ok { OnOk result (Becomes self.old self.new (record self.old.state { crashed = self.old.state.crashed ++ (shard, replica) ∷ [] })) }
        ensures err { IfErr result (λ fault. fault ≡ SendFault.NoMemory) }
        ensures spent { OnErr result (self.new.spent ≡ true) }
    {
        self.spent = true;
        match self.crashed.push((shard, replica)) {
            Ok(()) => {}
            Err(NoMemory) => return Err(SendFault::NoMemory),
        }
        self.spent = false;
        Ok(())
    }

    /// A new sequencer begins the next epoch.
    fn replace(&mut self) -> Result<(), SendFault>
        requires unspent { self.old.spent ≡ false }
        requires room { CanGoOn self.old.state }
        ensures ok { OnOk result (Becomes self.old self.new (record self.old.state { stampings = replace self.old.config self.old.state.stampings })) }
        ensures err { IfErr result (λ fault. fault ≡ SendFault.NoMemory) }
        ensures spent { OnErr result (self.new.spent ≡ true) }
    {
        self.spent = true;
        match self.sequencers.replace() {
            Ok(()) => {}
            Err(NoMemory) => return Err(SendFault::NoMemory),
        }
        self.spent = false;
        Ok(())
    }

    /// A client asks for the abort of another's transaction, with the keys of its plan.
    fn abort(&mut self, asker: ClientId, id: TxnId) -> Result<(), SendFault>
        requires unspent { self.old.spent ≡ false }
        requires another { (asker.0 == id.client.0) ≡ false }
        ensures ok { OnOk result (Becomes self.old self.new
            (aborts_plan self.old.config self.old.state asker id (plan_of_transaction (submitted_at self.old.state id)))) }
        ensures err { IfErr result (IsMetBy
            (aborts_plan self.old.config self.old.state asker id (plan_of_transaction (submitted_at self.old.state id))).sent) }
        ensures spent { OnErr result (self.new.spent ≡ true) }
    {
        match self.clients.plan_keys(id) {
            Ok(Some(keys)) => self.client_acts(asker, Act::Abort(id, keys)),
            Ok(None) => Ok(()),
            Err(NoMemory) => {
                self.spent = true;
                Err(SendFault::NoMemory)
            }
        }
    }

    /// What the event does.
    #[tactic(auto, unfolding(eris_rules::specs::Happenings::happens))]
    pub(crate) fn happen(&mut self, event: Event) -> Result<(), SendFault>
        requires unspent { self.old.spent ≡ false }
        requires fits { EventFits event }
        requires room { CanGoOn self.old.state }
        requires known { cause self.old.config self.old.state event ≡ None }
        ensures ok { OnOk result (Becomes self.old self.new (happens self.old.config self.old.state event)) }
        ensures err { IfErr result (IsMetBy (happens self.old.config self.old.state event).sent) }
        ensures spent { OnErr result (self.new.spent ≡ true) }
    {
        match event {
            Event::Submit { client, ops } => {
                self.client_acts(client, Act::Submit(Txn::Whole(ops)))
            }
            Event::General { client, plan } => {
                self.client_acts(client, Act::Submit(Txn::General(plan)))
            }
            Event::Retry { client, number } => self.client_acts(client, Act::Retry(number)),
            Event::Abort { asker, id } => self.abort(asker, id),
            Event::Deliver { packet, epoch } => self.deliver(packet, epoch),
            Event::Flow => self.flow(),
            Event::Lose => {
                self.lose();
                Ok(())
            }
            Event::Probe { shard, replica } => {
                self.replica_takes(shard, replica, ReplicaInput::Probe)
            }
            Event::Suspect { shard, replica } => {
                self.replica_takes(shard, replica, ReplicaInput::Suspect)
            }
            Event::Sync { shard, replica } => {
                self.replica_takes(shard, replica, ReplicaInput::Sync)
            }
            Event::Crash { shard, replica } => self.crash(shard, replica),
            Event::Nudge => self.coordinator_takes(CoordInput::Nudge),
            Event::Replace => self.replace(),
            Event::Noise { node, bytes } => self.hear_noise(node, bytes.as_slice()),
        }
    }
}
