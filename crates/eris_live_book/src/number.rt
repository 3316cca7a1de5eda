ghost use Rattle.std.specs.Prelude.{◌≡◌, ◌<◌};
ghost use Rattle.eris_law_live.specs.LiveNodes.{client_of, number_of, replica_of};

use eris_base::{ClientId, Node, ReplicaId, ShardId};

/// The number that packets to the node go to: its number in the live system, or 10 where it isn't a
/// node of that system.
#[tactic(auto, unfolding(eris_law_live::specs::LiveNodes::number_of))]
pub fn number_of(node: Node) -> u32
    ensures { result ≡ number_of node }
{
    match node {
        Node::Sequencer => 0,
        Node::Coordinator => 1,
        Node::Replica(shard, replica) => replica_number(shard, replica),
        Node::Client(client) => client_number(client),
    }
}

#[tactic(auto, unfolding(eris_law_live::specs::LiveNodes::number_of))]
fn replica_number(shard: ShardId, replica: ReplicaId) -> u32
    ensures { result ≡ number_of (replica_of shard.0 replica.0) }
{
    if shard.0 < 2 && replica.0 < 3 {
        2 + 3 * shard.0 as u32 + replica.0 as u32
    } else {
        10
    }
}

#[tactic(auto, unfolding(eris_law_live::specs::LiveNodes::number_of))]
fn client_number(client: ClientId) -> u32
    ensures { result ≡ number_of (client_of client.0) }
{
    if client.0 < 2 {
        8 + client.0 as u32
    } else {
        10
    }
}
