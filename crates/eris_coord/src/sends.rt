//! Messages to replicas, in the order of shards and then of replicas.
ghost use Rattle.std.specs.Prelude.{◌≡◌, ◌≤◌, ◌+◌, ◌*◌, ◌++◌, ◌∷◌, [], map, OnOk, IfOk};
ghost use Rattle.std.specs.List.{flat_map, range_with_len};
ghost use Rattle.eris_base.specs.declared.ids.Node.TheVariants.{Replica};
ghost use Rattle.eris_epoch.specs.Closing.{shard_log};
ghost use Rattle.eris_rules.specs.Addressees.{replica_node, shard_replicas, all_replicas};
ghost use Rattle.eris_rules.specs.Coordinators.{tell_all};
ghost use Rattle.eris_rules.specs.Outer.{tell_each};

use eris_base::{Config, Epoch, NoMemory, Node, Place, ReplicaId, Row, ShardId};
use eris_epoch::shard_log;
use eris_msg::{Message, Outgoing};
use eris_rules::{tell, tell_each};
use eris_txn::Packet;
use std::alloc::Global;

/// The message to every replica of every shard.
pub fn tell_all(alloc: Global, config: &Config, message: Message) -> Result<Row<Outgoing>, NoMemory>
    ensures { IfOk result (λ sends. sends ≡ tell_all config.now message) }
{
    let nodes = all_replicas(alloc, config)?;
    let mut sends = Row::new(alloc);
    tell_nodes(alloc, &mut sends, nodes.as_slice(), message)?;
    Ok(sends)
}

/// The request for each of the places, to every replica of every shard.
pub fn request_all(
    alloc: Global,
    config: &Config,
    places: &[Place],
) -> Result<Row<Outgoing>, NoMemory>
    ensures { IfOk result (λ sends. sends ≡ flat_map (λ place. tell_all config.now (Message.Request place)) places.now) }
{
    let nodes = all_replicas(alloc, config)?;
    let mut sends = Row::new(alloc);
    for place in places {
        tell_nodes(
            alloc,
            &mut sends,
            nodes.as_slice(),
            Message::Request { place: *place },
        )?;
    }
    Ok(sends)
}

/// The drop of each of the places, to every replica of every shard.
pub fn drop_all(alloc: Global, config: &Config, places: &[Place]) -> Result<Row<Outgoing>, NoMemory>
    ensures { IfOk result (λ sends. sends ≡ flat_map (λ place. tell_all config.now (Message.Dropped place)) places.now) }
{
    let nodes = all_replicas(alloc, config)?;
    let mut sends = Row::new(alloc);
    for place in places {
        tell_nodes(
            alloc,
            &mut sends,
            nodes.as_slice(),
            Message::Dropped { place: *place },
        )?;
    }
    Ok(sends)
}

/// The start of an epoch to one replica of a shard, with the shard's log of the closed packets.
pub fn start_one(
    alloc: Global,
    epoch: Epoch,
    closed: &[Packet],
    shard: ShardId,
    replica: ReplicaId,
) -> Result<Row<Outgoing>, NoMemory>
    ensures { IfOk result (λ sends. sends ≡ record { to = Replica shard replica; message = Message.StartEpoch epoch shard (shard_log closed.now shard) } ∷ []) }
{
    let packets = shard_log(alloc, closed, shard)?;
    tell(
        alloc,
        Node::Replica(shard, replica),
        Message::StartEpoch {
            epoch,
            shard,
            packets,
        },
    )
}

/// The start of an epoch to every replica of every shard, each with its shard's log of the closed packets.
pub fn start_all(
    alloc: Global,
    config: &Config,
    epoch: Epoch,
    closed: &[Packet],
) -> Result<Row<Outgoing>, NoMemory>
    ensures { IfOk result (λ sends. sends ≡ flat_map (λ number. tell_each (shard_replicas config.now (record { 0 = number }))
        (Message.StartEpoch epoch (record { 0 = number }) (shard_log closed.now (record { 0 = number })))) (range_with_len 0 config.now.shards)) }
{
    let mut sends = Row::new(alloc);
    for shard in 0..config.shards() {
        start_shard(alloc, &mut sends, config, epoch, closed, ShardId(shard))?;
    }
    Ok(sends)
}

/// Adds the start of an epoch to every replica of a shard.
fn start_shard(
    alloc: Global,
    sends: &mut Row<Outgoing>,
    config: &Config,
    epoch: Epoch,
    closed: &[Packet],
    shard: ShardId,
) -> Result<(), NoMemory>
    ensures { OnOk result (sends.new ≡ sends.old ++ tell_each (shard_replicas config.now shard)
        (Message.StartEpoch epoch shard (shard_log closed.now shard))) }
{
    let packets = shard_log(alloc, closed, shard)?;
    let mut nodes = Row::new(alloc);
    add_shard(&mut nodes, config, shard)?;
    tell_nodes(
        alloc,
        sends,
        nodes.as_slice(),
        Message::StartEpoch {
            epoch,
            shard,
            packets,
        },
    )
}

/// Every replica of every shard, by shard and then by replica.
#[tactic(auto, unfolding(eris_rules::specs::Addressees::all_replicas))]
fn all_replicas(alloc: Global, config: &Config) -> Result<Row<Node>, NoMemory>
    ensures { IfOk result (λ nodes. nodes ≡ all_replicas config.now) }
{
    let mut nodes = Row::new(alloc);
    for shard in 0..config.shards() {
        add_shard(&mut nodes, config, ShardId(shard))?;
    }
    Ok(nodes)
}

/// Adds every replica of a shard, ascending.
#[tactic(auto, unfolding(eris_rules::specs::Addressees::shard_replicas))]
fn add_shard(nodes: &mut Row<Node>, config: &Config, shard: ShardId) -> Result<(), NoMemory>
    ensures { OnOk result (nodes.new ≡ nodes.old ++ shard_replicas config.now shard) }
{
    add_replicas(nodes, config.f(), shard)
}

/// Adds the first 2f+1 replicas of a shard, ascending.
fn add_replicas(nodes: &mut Row<Node>, f: u8, shard: ShardId) -> Result<(), NoMemory>
    requires { f ≤ 3 }
    ensures { OnOk result (nodes.new ≡ nodes.old ++ map (λ number. replica_node shard number) (range_with_len 0 (2 * f + 1))) }
{
    for replica in 0..2 * f + 1 {
        nodes.push(Node::Replica(shard, ReplicaId(replica)))?;
    }
    Ok(())
}

/// Adds the message to each of the nodes, in their order.
fn tell_nodes(
    alloc: Global,
    sends: &mut Row<Outgoing>,
    nodes: &[Node],
    message: Message,
) -> Result<(), NoMemory>
    ensures { OnOk result (sends.new ≡ sends.old ++ tell_each nodes.now message) }
{
    tell_each(alloc, sends, nodes, &message)
}
