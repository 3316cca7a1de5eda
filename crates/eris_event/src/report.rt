use eris_audit::OrderLine;
use eris_base::{Config, Dup, Epoch, NoMemory, ReplicaId, Row, ShardId, View};
use eris_txn::HistoryEvent;
use std::alloc::Global;

/// What a replica is doing, as a report tells it.
#[derive(Clone, Copy, Debug, PartialEq, Eq)]
pub enum ReplicaState {
    /// It has crashed.
    Crashed,
    /// It hasn't crashed, and it has promised a higher epoch than its own.
    Stopped,
    /// Neither, and it serves its view.
    Normal,
    /// Neither, and it waits for its view's start.
    Changing,
}

/// What a report tells of one replica.
#[derive(Clone, Copy, Debug, PartialEq, Eq)]
pub struct ReplicaLine {
    pub shard: ShardId,
    pub replica: ReplicaId,
    pub state: ReplicaState,
    pub epoch: Epoch,
    pub view: View,
    /// How many packets of its epoch it holds.
    pub held: u32,
    /// The greatest number up to which it knows each place of its epoch.
    pub length: u32,
    /// The number up to which its epoch is settled for it.
    pub settled: u32,
}

/// The state of a system after a run: what its clients saw, the order in which its transactions took
/// effect, and the counts of its nodes.
#[derive(Debug, Drop)]
pub struct Report {
    pub config: Config,
    /// The clients' events, in the order in which they happened.
    pub history: Row<HistoryEvent>,
    /// The transactions in the order in which they took effect.
    pub order: Row<OrderLine>,
    /// One line for each replica, by shard, then replica.
    pub replicas: Row<ReplicaLine>,
    /// The coordinator's epoch.
    pub current: Epoch,
    /// The epoch that the coordinator is going to; its own, unless a change of epochs is under way.
    pub target: Epoch,
    /// How many packets the coordinator has found in its epoch.
    pub found: u32,
    /// How many places the coordinator has dropped in its epoch.
    pub dropped: u32,
    /// How many packets were sent since the start.
    pub sent: u32,
}

impl Dup for ReplicaState {
    fn copy(&self, _: Global) -> Result<ReplicaState, NoMemory> {
        Ok(*self)
    }
}

impl Dup for ReplicaLine {
    fn copy(&self, _: Global) -> Result<ReplicaLine, NoMemory> {
        Ok(*self)
    }
}
