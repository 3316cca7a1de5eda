/// A shard's number, from 0.
#[derive(Clone, Copy, Debug, PartialEq, Eq, PartialOrd, Ord, Hash)]
pub struct ShardId(pub u8);

/// A replica's number within its shard, from 0 to 2f.
#[derive(Clone, Copy, Debug, PartialEq, Eq, PartialOrd, Ord, Hash)]
pub struct ReplicaId(pub u8);

/// A client's number, from 0.
#[derive(Clone, Copy, Debug, PartialEq, Eq, PartialOrd, Ord, Hash)]
pub struct ClientId(pub u8);

/// The time of one sequencer. A replaced sequencer begins a higher one.
#[derive(Clone, Copy, Debug, PartialEq, Eq, PartialOrd, Ord, Hash)]
pub struct Epoch(pub u32);

/// The time of one designated learner in a shard, within an epoch.
#[derive(Clone, Copy, Debug, PartialEq, Eq, PartialOrd, Ord, Hash)]
pub struct View(pub u32);

/// One number of one shard in one epoch, ordered by its fields in this order. Numbers start at 1 in
/// each epoch.
#[derive(Clone, Copy, Debug, PartialEq, Eq, PartialOrd, Ord, Hash)]
pub struct Place {
    pub epoch: Epoch,
    pub shard: ShardId,
    pub number: u32,
}

/// The client that submitted a transaction, and which of its transactions it is, from 1.
#[derive(Clone, Copy, Debug, PartialEq, Eq, PartialOrd, Ord, Hash)]
pub struct TxnId {
    pub client: ClientId,
    pub number: u32,
}

/// Whom a message is sent to.
#[derive(Clone, Copy, Debug, PartialEq, Eq)]
pub enum Node {
    Sequencer,
    Coordinator,
    Replica(ShardId, ReplicaId),
    Client(ClientId),
}

/// Which part of a transaction a packet carries: all of an independent one, or the preliminary or the
/// conclusory one of a general transaction.
#[derive(Clone, Copy, Debug, PartialEq, Eq, PartialOrd, Ord)]
pub enum Phase {
    Whole,
    Prelim,
    Conclude,
}
