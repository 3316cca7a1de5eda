use eris_base::{
    ClientId, Dup, Epoch, NoMemory, Phase, Place, ReplicaId, Row, Same, ShardId, Stamp, TxnId, View,
};
use eris_log::Part;
use eris_txn::{Answer, Body, Packet};
use std::alloc::Global;

/// What one node tells another.
#[derive(Debug, Drop)]
pub enum Message {
    /// A client asks the sequencer to stamp a body.
    Ask {
        asker: ClientId,
        id: TxnId,
        body: Body,
    },
    /// The sequencer hands a stamped body to the replicas.
    Txn {
        packet: Packet,
    },
    /// A replica that isn't the learner tells a client that it has the packet at its place.
    Vouch {
        view: View,
        shard: ShardId,
        replica: ReplicaId,
        stamp: Stamp,
        id: TxnId,
        phase: Phase,
    },
    /// The learner of a view answers a client.
    Reply {
        view: View,
        shard: ShardId,
        replica: ReplicaId,
        stamp: Stamp,
        id: TxnId,
        phase: Phase,
        answer: Answer,
    },
    /// The learner answers a client whose packet had waited, at a place that is settled.
    Late {
        shard: ShardId,
        replica: ReplicaId,
        id: TxnId,
        phase: Phase,
        answer: Answer,
    },
    /// A replica asks the coordinator for a place that it lacks.
    Find {
        replica: ReplicaId,
        place: Place,
    },
    /// The coordinator asks the replicas for a place.
    Request {
        place: Place,
    },
    /// A replica has a packet that the coordinator asked for.
    Has {
        packet: Packet,
    },
    /// A replica has no packet of the place, and takes none until the coordinator has decided.
    TempDropped {
        place: Place,
        shard: ShardId,
        replica: ReplicaId,
        view: View,
    },
    /// The coordinator found a packet.
    Found {
        packet: Packet,
    },
    /// The coordinator dropped a place for good.
    Dropped {
        place: Place,
    },
    /// A replica gives what it knows to the learner of a higher view.
    ViewChange {
        replica: ReplicaId,
        view: View,
        part: Part,
    },
    /// The learner begins a view with what a quorum knew.
    StartView {
        view: View,
        part: Part,
    },
    /// The learner asks how far the others are.
    SyncAsk {
        epoch: Epoch,
        view: View,
    },
    /// A replica tells the learner its length.
    Ack {
        replica: ReplicaId,
        epoch: Epoch,
        view: View,
        length: u32,
    },
    /// The learner tells up to which number the log is settled. The places, a shard and a number each,
    /// are of the message's epoch; they were dropped for good.
    Settled {
        epoch: Epoch,
        view: View,
        number: u32,
        places: Row<(ShardId, u32)>,
    },
    /// A replica tells the coordinator of a higher epoch.
    NewEpoch {
        shard: ShardId,
        replica: ReplicaId,
        epoch: Epoch,
    },
    /// The coordinator asks the replicas to stop for a higher epoch.
    EpochAsk {
        epoch: Epoch,
    },
    /// A replica that stopped gives the coordinator what it knows.
    EpochState {
        replica: ReplicaId,
        epoch: Epoch,
        part: Part,
    },
    /// The coordinator begins an epoch, and gives a shard the packets of all epochs before it.
    StartEpoch {
        epoch: Epoch,
        shard: ShardId,
        packets: Row<Packet>,
    },
}

impl Dup for Message {
    fn copy(&self, alloc: Global) -> Result<Message, NoMemory> {
        match self {
            Message::Ask { asker, id, body } => Ok(Message::Ask {
                asker: *asker,
                id: *id,
                body: body.copy(alloc)?,
            }),
            Message::Txn { packet } => Ok(Message::Txn {
                packet: packet.copy(alloc)?,
            }),
            Message::Vouch {
                view,
                shard,
                replica,
                stamp,
                id,
                phase,
            } => Ok(Message::Vouch {
                view: *view,
                shard: *shard,
                replica: *replica,
                stamp: stamp.copy(alloc)?,
                id: *id,
                phase: *phase,
            }),
            Message::Reply {
                view,
                shard,
                replica,
                stamp,
                id,
                phase,
                answer,
            } => Ok(Message::Reply {
                view: *view,
                shard: *shard,
                replica: *replica,
                stamp: stamp.copy(alloc)?,
                id: *id,
                phase: *phase,
                answer: answer.copy(alloc)?,
            }),
            Message::Late {
                shard,
                replica,
                id,
                phase,
                answer,
            } => Ok(Message::Late {
                shard: *shard,
                replica: *replica,
                id: *id,
                phase: *phase,
                answer: answer.copy(alloc)?,
            }),
            Message::Find { replica, place } => Ok(Message::Find {
                replica: *replica,
                place: *place,
            }),
            Message::Request { place } => Ok(Message::Request { place: *place }),
            Message::Has { packet } => Ok(Message::Has {
                packet: packet.copy(alloc)?,
            }),
            Message::TempDropped {
                place,
                shard,
                replica,
                view,
            } => Ok(Message::TempDropped {
                place: *place,
                shard: *shard,
                replica: *replica,
                view: *view,
            }),
            Message::Found { packet } => Ok(Message::Found {
                packet: packet.copy(alloc)?,
            }),
            Message::Dropped { place } => Ok(Message::Dropped { place: *place }),
            Message::ViewChange {
                replica,
                view,
                part,
            } => Ok(Message::ViewChange {
                replica: *replica,
                view: *view,
                part: part.copy(alloc)?,
            }),
            Message::StartView { view, part } => Ok(Message::StartView {
                view: *view,
                part: part.copy(alloc)?,
            }),
            Message::SyncAsk { epoch, view } => Ok(Message::SyncAsk {
                epoch: *epoch,
                view: *view,
            }),
            Message::Ack {
                replica,
                epoch,
                view,
                length,
            } => Ok(Message::Ack {
                replica: *replica,
                epoch: *epoch,
                view: *view,
                length: *length,
            }),
            Message::Settled {
                epoch,
                view,
                number,
                places,
            } => Ok(Message::Settled {
                epoch: *epoch,
                view: *view,
                number: *number,
                places: places.copy(alloc)?,
            }),
            Message::NewEpoch {
                shard,
                replica,
                epoch,
            } => Ok(Message::NewEpoch {
                shard: *shard,
                replica: *replica,
                epoch: *epoch,
            }),
            Message::EpochAsk { epoch } => Ok(Message::EpochAsk { epoch: *epoch }),
            Message::EpochState {
                replica,
                epoch,
                part,
            } => Ok(Message::EpochState {
                replica: *replica,
                epoch: *epoch,
                part: part.copy(alloc)?,
            }),
            Message::StartEpoch {
                epoch,
                shard,
                packets,
            } => Ok(Message::StartEpoch {
                epoch: *epoch,
                shard: *shard,
                packets: packets.copy(alloc)?,
            }),
        }
    }
}

impl Same for Message {
    fn same(&self, other: &Message) -> bool {
        match (self, other) {
            (
                Message::Ask { asker, id, body },
                Message::Ask {
                    asker: other_asker,
                    id: other_id,
                    body: other_body,
                },
            ) => *asker == *other_asker && *id == *other_id && body.same(other_body),
            (
                Message::Txn { packet },
                Message::Txn {
                    packet: other_packet,
                },
            ) => packet.same(other_packet),
            (
                Message::Vouch {
                    view,
                    shard,
                    replica,
                    stamp,
                    id,
                    phase,
                },
                Message::Vouch {
                    view: other_view,
                    shard: other_shard,
                    replica: other_replica,
                    stamp: other_stamp,
                    id: other_id,
                    phase: other_phase,
                },
            ) => *view == *other_view
                && *shard == *other_shard
                && *replica == *other_replica
                && stamp.same(other_stamp)
                && *id == *other_id
                && *phase == *other_phase,
            (
                Message::Reply {
                    view,
                    shard,
                    replica,
                    stamp,
                    id,
                    phase,
                    answer,
                },
                Message::Reply {
                    view: other_view,
                    shard: other_shard,
                    replica: other_replica,
                    stamp: other_stamp,
                    id: other_id,
                    phase: other_phase,
                    answer: other_answer,
                },
            ) => *view == *other_view
                && *shard == *other_shard
                && *replica == *other_replica
                && stamp.same(other_stamp)
                && *id == *other_id
                && *phase == *other_phase
                && answer.same(other_answer),
            (
                Message::Late {
                    shard,
                    replica,
                    id,
                    phase,
                    answer,
                },
                Message::Late {
                    shard: other_shard,
                    replica: other_replica,
                    id: other_id,
                    phase: other_phase,
                    answer: other_answer,
                },
            ) => *shard == *other_shard
                && *replica == *other_replica
                && *id == *other_id
                && *phase == *other_phase
                && answer.same(other_answer),
            (
                Message::Find { replica, place },
                Message::Find {
                    replica: other_replica,
                    place: other_place,
                },
            ) => *replica == *other_replica && *place == *other_place,
            (Message::Request { place }, Message::Request { place: other_place }) => *place
                == *other_place,
            (
                Message::Has { packet },
                Message::Has {
                    packet: other_packet,
                },
            ) => packet.same(other_packet),
            (
                Message::TempDropped {
                    place,
                    shard,
                    replica,
                    view,
                },
                Message::TempDropped {
                    place: other_place,
                    shard: other_shard,
                    replica: other_replica,
                    view: other_view,
                },
            ) => *place == *other_place
                && *shard == *other_shard
                && *replica == *other_replica
                && *view == *other_view,
            (
                Message::Found { packet },
                Message::Found {
                    packet: other_packet,
                },
            ) => packet.same(other_packet),
            (Message::Dropped { place }, Message::Dropped { place: other_place }) => *place
                == *other_place,
            (
                Message::ViewChange {
                    replica,
                    view,
                    part,
                },
                Message::ViewChange {
                    replica: other_replica,
                    view: other_view,
                    part: other_part,
                },
            ) => *replica == *other_replica && *view == *other_view && part.same(other_part),
            (
                Message::StartView { view, part },
                Message::StartView {
                    view: other_view,
                    part: other_part,
                },
            ) => *view == *other_view && part.same(other_part),
            (
                Message::SyncAsk { epoch, view },
                Message::SyncAsk {
                    epoch: other_epoch,
                    view: other_view,
                },
            ) => *epoch == *other_epoch && *view == *other_view,
            (
                Message::Ack {
                    replica,
                    epoch,
                    view,
                    length,
                },
                Message::Ack {
                    replica: other_replica,
                    epoch: other_epoch,
                    view: other_view,
                    length: other_length,
                },
            ) => *replica == *other_replica
                && *epoch == *other_epoch
                && *view == *other_view
                && *length == *other_length,
            (
                Message::Settled {
                    epoch,
                    view,
                    number,
                    places,
                },
                Message::Settled {
                    epoch: other_epoch,
                    view: other_view,
                    number: other_number,
                    places: other_places,
                },
            ) => *epoch == *other_epoch
                && *view == *other_view
                && *number == *other_number
                && places.same(other_places),
            (
                Message::NewEpoch {
                    shard,
                    replica,
                    epoch,
                },
                Message::NewEpoch {
                    shard: other_shard,
                    replica: other_replica,
                    epoch: other_epoch,
                },
            ) => *shard == *other_shard && *replica == *other_replica && *epoch == *other_epoch,
            (Message::EpochAsk { epoch }, Message::EpochAsk { epoch: other_epoch }) => *epoch
                == *other_epoch,
            (
                Message::EpochState {
                    replica,
                    epoch,
                    part,
                },
                Message::EpochState {
                    replica: other_replica,
                    epoch: other_epoch,
                    part: other_part,
                },
            ) => *replica == *other_replica && *epoch == *other_epoch && part.same(other_part),
            (
                Message::StartEpoch {
                    epoch,
                    shard,
                    packets,
                },
                Message::StartEpoch {
                    epoch: other_epoch,
                    shard: other_shard,
                    packets: other_packets,
                },
            ) => *epoch == *other_epoch && *shard == *other_shard && packets.same(other_packets),
            _ => false,
        }
    }
}
