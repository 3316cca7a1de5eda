use eris_base::{ClientId, Dup, Epoch, NoMemory, Node, ReplicaId, Row, Same, ShardId, TxnId};
use eris_txn::{Op, Plan};
use std::alloc::Global;

/// What a script asks of the system that it runs: one step of one node, or something that the network does.
#[derive(Debug, Drop)]
pub enum Event {
    /// The client submits an independent transaction.
    Submit { client: ClientId, ops: Row<Op> },
    /// The client submits a general transaction.
    General { client: ClientId, plan: Plan },
    /// The client asks once more for its transaction of this number.
    Retry { client: ClientId, number: u32 },
    /// A client asks that another client's general transaction be aborted.
    Abort { asker: ClientId, id: TxnId },
    /// The network delivers the packet of this number, counted from 0 in order of sending. An epoch names
    /// the sequencer that gets it; where none is named it is the newest.
    Deliver { packet: u32, epoch: Option<Epoch> },
    /// The network delivers the lowest packet that was neither delivered nor lost yet.
    Flow,
    /// The network loses the lowest packet that was neither delivered nor lost yet.
    Lose,
    /// The replica's timer asks it to look for what it misses.
    Probe { shard: ShardId, replica: ReplicaId },
    /// The replica's timer tells it that its learner may have crashed.
    Suspect { shard: ShardId, replica: ReplicaId },
    /// The replica's timer asks it to settle what a quorum has.
    Sync { shard: ShardId, replica: ReplicaId },
    /// The replica stops for good.
    Crash { shard: ShardId, replica: ReplicaId },
    /// The coordinator's timer asks it to repeat its open questions.
    Nudge,
    /// A new sequencer begins the next epoch.
    Replace,
    /// The node gets bytes that nobody sent.
    Noise { node: Node, bytes: Row<u8> },
}

impl Dup for Event {
    fn copy(&self, alloc: Global) -> Result<Event, NoMemory> {
        match self {
            Event::Submit { client, ops } => Ok(Event::Submit {
                client: *client,
                ops: ops.copy(alloc)?,
            }),
            Event::General { client, plan } => Ok(Event::General {
                client: *client,
                plan: plan.copy(alloc)?,
            }),
            Event::Retry { client, number } => Ok(Event::Retry {
                client: *client,
                number: *number,
            }),
            Event::Abort { asker, id } => Ok(Event::Abort {
                asker: *asker,
                id: *id,
            }),
            Event::Deliver { packet, epoch } => Ok(Event::Deliver {
                packet: *packet,
                epoch: *epoch,
            }),
            Event::Flow => Ok(Event::Flow),
            Event::Lose => Ok(Event::Lose),
            Event::Probe { shard, replica } => Ok(Event::Probe {
                shard: *shard,
                replica: *replica,
            }),
            Event::Suspect { shard, replica } => Ok(Event::Suspect {
                shard: *shard,
                replica: *replica,
            }),
            Event::Sync { shard, replica } => Ok(Event::Sync {
                shard: *shard,
                replica: *replica,
            }),
            Event::Crash { shard, replica } => Ok(Event::Crash {
                shard: *shard,
                replica: *replica,
            }),
            Event::Nudge => Ok(Event::Nudge),
            Event::Replace => Ok(Event::Replace),
            Event::Noise { node, bytes } => Ok(Event::Noise {
                node: *node,
                bytes: bytes.copy(alloc)?,
            }),
        }
    }
}

impl Same for Event {
    fn same(&self, other: &Event) -> bool {
        match (self, other) {
            (
                Event::Submit { client, ops },
                Event::Submit {
                    client: another,
                    ops: others,
                },
            ) => *client == *another && ops.same(others),
            (
                Event::General { client, plan },
                Event::General {
                    client: another,
                    plan: rest,
                },
            ) => *client == *another && plan.same(rest),
            (
                Event::Retry { client, number },
                Event::Retry {
                    client: another,
                    number: count,
                },
            ) => *client == *another && *number == *count,
            (
                Event::Abort { asker, id },
                Event::Abort {
                    asker: another,
                    id: other,
                },
            ) => *asker == *another && *id == *other,
            (
                Event::Deliver { packet, epoch },
                Event::Deliver {
                    packet: another,
                    epoch: named,
                },
            ) => *packet == *another && epoch.same(named),
            (Event::Flow, Event::Flow) => true,
            (Event::Lose, Event::Lose) => true,
            (
                Event::Probe { shard, replica },
                Event::Probe {
                    shard: other,
                    replica: another,
                },
            ) => *shard == *other && *replica == *another,
            (
                Event::Suspect { shard, replica },
                Event::Suspect {
                    shard: other,
                    replica: another,
                },
            ) => *shard == *other && *replica == *another,
            (
                Event::Sync { shard, replica },
                Event::Sync {
                    shard: other,
                    replica: another,
                },
            ) => *shard == *other && *replica == *another,
            (
                Event::Crash { shard, replica },
                Event::Crash {
                    shard: other,
                    replica: another,
                },
            ) => *shard == *other && *replica == *another,
            (Event::Nudge, Event::Nudge) => true,
            (Event::Replace, Event::Replace) => true,
            (
                Event::Noise { node, bytes },
                Event::Noise {
                    node: other,
                    bytes: others,
                },
            ) => *node == *other && bytes.same(others),
            _ => false,
        }
    }
}
