//! The sends of a stamped packet.
ghost use Rattle.std.specs.Prelude.{◌≡◌, ◌≤◌, ◌++◌, ◌∷◌, [], OnOk, IfOk};
ghost use Rattle.std.specs.List.{flat_map};
ghost use Rattle.eris_sequencer.specs.Asks.{sends_to, sends_of};

use eris_base::{Dup, NoMemory, Node, ReplicaId, Row, ShardId};
use eris_msg::{Message, Outgoing};
use eris_txn::{Packet, participants};
use std::alloc::Global;

/// The packet to every replica of each participant, by shard and then by replica.
#[tactic(auto, unfolding(crate::specs::Asks::sends_of))]
pub fn sends_of(alloc: Global, f: u8, packet: &Packet) -> Result<Row<Outgoing>, NoMemory>
    requires { f ≤ 3 }
    ensures { IfOk result (λ sends. sends ≡ sends_of f packet.now) }
{
    let shards = participants(alloc, &packet.body)?;
    sends_to_all(alloc, f, packet, shards.as_slice())
}

fn sends_to_all(
    alloc: Global,
    f: u8,
    packet: &Packet,
    shards: &[ShardId],
) -> Result<Row<Outgoing>, NoMemory>
    requires { f ≤ 3 }
    ensures { IfOk result (λ sends. sends ≡ flat_map (sends_to f packet.now) shards.now) }
{
    let mut sends = Row::new(alloc);
    for shard in shards {
        send_to(alloc, &mut sends, f, packet, *shard)?;
    }
    Ok(sends)
}

/// Adds the packet to every replica of a shard, ascending.
#[tactic(auto, unfolding(crate::specs::Asks::sends_to))]
fn send_to(
    alloc: Global,
    sends: &mut Row<Outgoing>,
    f: u8,
    packet: &Packet,
    shard: ShardId,
) -> Result<(), NoMemory>
    requires { f ≤ 3 }
    ensures { OnOk result (sends.new ≡ sends.old ++ sends_to f packet.now shard) }
{
    for replica in 0..2 * f + 1 {
        send_one(
            alloc,
            sends,
            packet,
            Node::Replica(shard, ReplicaId(replica)),
        )?;
    }
    Ok(())
}

fn send_one(
    alloc: Global,
    sends: &mut Row<Outgoing>,
    packet: &Packet,
    to: Node,
) -> Result<(), NoMemory>
    ensures { OnOk result (sends.new ≡ sends.old ++ record { to = to; message = Message.Txn packet.now } ∷ []) }
{
    let packet = packet.copy(alloc)?;
    sends.push(Outgoing {
        to,
        message: Message::Txn { packet },
    })
}
