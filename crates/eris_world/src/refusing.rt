//! Why an event is refused, whatever it would send.
ghost use Rattle.std.specs.Prelude.{◌≡◌, false, List, Ok, Err, is_some, map, nat_lt};
ghost use Rattle.std.specs.Option.{option_or};
ghost use Rattle.eris_txn.specs.Operations.{key_of};
ghost use Rattle.std.specs.List.{list_all};
ghost use Rattle.eris_txn.specs.declared.key.Key.{Key};
ghost use Rattle.eris_rules.specs.Happenings.{submitted_at};
ghost use Rattle.eris_rules.specs.Known.{knows_keys};
ghost use Rattle.eris_rules.specs.Refusals.{abort_cause, cause, deliver_cause, delivery_cause, general_cause, is_crashed_node, names_sequencer, node_cause, noise_cause, retry_cause, submit_cause, timer_cause};
ghost use Rattle.std.specs.Prelude.{slice_get};
ghost use Rattle.eris_world.specs.Checking.{Tells, is_end, refusal_of};

use crate::world::World;
use eris_base::{ClientId, Epoch, NoMemory, Node, ReplicaId, ShardId, TxnId};
use eris_event::{Event, Refusal};
use eris_msg::{DecodeFault, decode};
use eris_network::SendFault;
use eris_txn::{Key, Op};
use std::alloc::Global;

/// A fault of the network as a refusal.
pub(crate) fn refusal_of(fault: SendFault) -> Refusal
    ensures { result ≡ refusal_of fault }
{
    match fault {
        SendFault::Packets => Refusal::Packets,
        SendFault::Bytes => Refusal::Bytes,
        SendFault::NoMemory => Refusal::NoMemory,
    }
}

/// Whether a refusal is for a limit or for want of memory.
pub(crate) fn is_end(refusal: Refusal) -> bool
    ensures { result ≡ is_end refusal }
{
    matches!(
        refusal,
        Refusal::Packets | Refusal::Bytes | Refusal::NoMemory
    )
}

impl World {
    /// The first cause of its kind for which the event is refused.
    #[tactic(auto, unfolding(eris_rules::specs::Refusals::cause))]
    pub(crate) fn check(&self, event: &Event) -> Result<(), Refusal>
        requires { self.now.spent ≡ false }
        ensures { Tells (cause self.now.config self.now.state event.now) result }
    {
        match event {
            Event::Submit { client, ops } => self.check_submit(
                *client,
                self.knows_ops(ops.as_slice()),
            ),
            Event::General { client, plan } => self.check_submit(
                *client,
                self.knows_keys(plan.keys()),
            ),
            Event::Retry { client, number } => self.check_retry(*client, *number),
            Event::Abort { asker, id } => self.check_abort(*asker, *id),
            Event::Deliver { packet, epoch } => self.check_deliver(*packet, *epoch),
            Event::Probe { shard, replica }
            | Event::Suspect { shard, replica }
            | Event::Sync { shard, replica }
            | Event::Crash { shard, replica } => self.check_timer(*shard, *replica),
            Event::Noise { node, bytes } => self.check_noise(*node, bytes.as_slice()),
            Event::Flow | Event::Lose | Event::Nudge | Event::Replace => Ok(()),
        }
    }

    /// Whether the client is known, and the shards of what it submits are.
    #[tactic(auto, unfolding(eris_rules::specs::Refusals::submit_cause))]
    fn check_submit(&self, client: ClientId, known: bool) -> Result<(), Refusal>
        ensures { (keys : List Key) → known ≡ knows_keys self.now.config keys → Tells (submit_cause self.now.config client keys) result }
    {
        if client.0 >= self.config.clients() {
            return Err(Refusal::NoSuchClient);
        }
        if !known {
            return Err(Refusal::NoSuchShard);
        }
        Ok(())
    }

    #[tactic(auto, unfolding(eris_rules::specs::Known::knows_keys))]
    fn knows_keys(&self, keys: &[Key]) -> bool
        ensures { result ≡ knows_keys self.now.config keys.now }
    {
        let shards = self.config.shards();
        keys.iter().all(|key| key.shard.0 < shards)
    }

    fn knows_ops(&self, ops: &[Op]) -> bool
        ensures { result ≡ knows_keys self.now.config (map key_of ops.now) }
    {
        knows_ops(self.config.shards(), ops)
    }

    /// Whether the client is known, and submitted such a transaction.
    #[tactic(auto, unfolding(eris_rules::specs::Refusals::retry_cause))]
    fn check_retry(&self, client: ClientId, number: u32) -> Result<(), Refusal>
        requires { self.now.spent ≡ false }
        ensures { Tells (retry_cause self.now.config self.now.state client number) result }
    {
        if client.0 >= self.config.clients() {
            return Err(Refusal::NoSuchClient);
        }
        if !self.has_submitted(TxnId { client, number }) {
            return Err(Refusal::NoSuchTxn);
        }
        Ok(())
    }

    #[tactic(auto, unfolding(eris_rules::specs::Happenings::submitted_at))]
    fn has_submitted(&self, id: TxnId) -> bool
        requires { self.now.spent ≡ false }
        ensures { result ≡ is_some (submitted_at self.now.state id) }
    {
        self.clients.has_submitted(id)
    }

    /// Whether both clients are known, the asker isn't the owner, and the owner submitted such a general
    /// transaction.
    #[tactic(auto, unfolding(eris_rules::specs::Refusals::abort_cause))]
    fn check_abort(&self, asker: ClientId, id: TxnId) -> Result<(), Refusal>
        requires { self.now.spent ≡ false }
        ensures { Tells (abort_cause self.now.config self.now.state asker id) result }
    {
        if asker.0 >= self.config.clients() || id.client.0 >= self.config.clients() {
            return Err(Refusal::NoSuchClient);
        }
        if asker.0 == id.client.0 {
            return Err(Refusal::OwnTxn);
        }
        self.check_general(id)
    }

    #[tactic(auto, unfolding(eris_rules::specs::Happenings::submitted_at))]
    fn check_general(&self, id: TxnId) -> Result<(), Refusal>
        requires { self.now.spent ≡ false }
        ensures { Tells (general_cause (submitted_at self.now.state id)) result }
    {
        if !self.has_submitted(id) {
            return Err(Refusal::NoSuchTxn);
        }
        match self.clients.plan_keys(id) {
            Ok(Some(_)) => Ok(()),
            Ok(None) => Err(Refusal::NotGeneral),
            Err(NoMemory) => Err(Refusal::NoMemory),
        }
    }

    /// Whether such a message was sent, its replica hasn't crashed, and a sequencer that is named is there.
    fn check_deliver(&self, packet: u32, epoch: Option<Epoch>) -> Result<(), Refusal>
        requires { self.now.spent ≡ false }
        ensures { Tells (deliver_cause self.now.state epoch (slice_get self.now.state.sent packet)) result }
    {
        match self.network.addressee(packet) {
            Some(to) => self.check_delivery(epoch, to),
            None => Err(Refusal::NoSuchPacket),
        }
    }

    #[tactic(auto, unfolding(eris_rules::specs::Refusals::delivery_cause))]
    fn check_delivery(&self, epoch: Option<Epoch>, to: Node) -> Result<(), Refusal>
        requires { self.now.spent ≡ false }
        ensures { Tells (delivery_cause self.now.state epoch to) result }
    {
        if self.is_crashed_node(to) {
            return Err(Refusal::Crashed);
        }
        if !self.names_sequencer(to, epoch) {
            return Err(Refusal::NoSuchSequencer);
        }
        Ok(())
    }

    fn is_crashed_node(&self, node: Node) -> bool
        ensures { result ≡ is_crashed_node self.now.state node }
    {
        match node {
            Node::Replica(shard, replica) => self.has_crashed(shard, replica),
            Node::Sequencer | Node::Coordinator | Node::Client(_) => false,
        }
    }

    fn names_sequencer(&self, node: Node, epoch: Option<Epoch>) -> bool
        requires { self.now.spent ≡ false }
        ensures { result ≡ names_sequencer self.now.state node epoch }
    {
        match epoch {
            Some(epoch) => {
                matches!(node, Node::Sequencer) && epoch.0 <= self.sequencers.newest().0
            }
            None => true,
        }
    }

    /// Whether there is such a replica, and it hasn't crashed.
    #[tactic(auto, unfolding(eris_rules::specs::Refusals::timer_cause))]
    fn check_timer(&self, shard: ShardId, replica: ReplicaId) -> Result<(), Refusal>
        ensures { Tells (timer_cause self.now.config self.now.state shard replica) result }
    {
        if shard.0 >= self.config.shards() || replica.0 >= 2 * self.config.f() + 1 {
            return Err(Refusal::NoSuchReplica);
        }
        if self.has_crashed(shard, replica) {
            return Err(Refusal::Crashed);
        }
        Ok(())
    }

    /// Whether there is such a node, it hasn't crashed, and the bytes are no message.
    fn check_noise(&self, node: Node, bytes: &[u8]) -> Result<(), Refusal>
        ensures { Tells (option_or (node_cause self.now.config self.now.state node) (noise_cause bytes.now)) result }
    {
        match self.check_node(node) {
            Ok(()) => check_bytes(self.alloc, bytes),
            Err(refusal) => Err(refusal),
        }
    }

    fn check_node(&self, node: Node) -> Result<(), Refusal>
        ensures { Tells (node_cause self.now.config self.now.state node) result }
    {
        match node {
            Node::Sequencer | Node::Coordinator => Ok(()),
            Node::Replica(shard, replica) => self.check_timer(shard, replica),
            Node::Client(client) => {
                if client.0 >= self.config.clients() {
                    return Err(Refusal::NoSuchClient);
                }
                Ok(())
            }
        }
    }
}

/// Whether the shards of all operations are below the limit.
fn knows_ops(shards: u8, ops: &[Op]) -> bool
    ensures { result ≡ list_all (λ op. nat_lt (key_of op).shard.0 shards) ops.now }
{
    ops.iter().all(|op| op.key().shard.0 < shards)
}

/// Whether the bytes are no message.
#[tactic(auto, unfolding(eris_rules::specs::Refusals::noise_cause, eris_rules::specs::Refusals::is_message))]
fn check_bytes(alloc: Global, bytes: &[u8]) -> Result<(), Refusal>
    ensures { Tells (noise_cause bytes.now) result }
{
    match decode(alloc, bytes) {
        Ok(_) => Err(Refusal::IsMessage),
        Err(DecodeFault::Bad { .. }) => Ok(()),
        Err(DecodeFault::NoMemory) => Err(Refusal::NoMemory),
    }
}
