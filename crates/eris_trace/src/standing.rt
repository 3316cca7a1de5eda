use eris_base::{Epoch, Row};
use eris_event::ReplicaLine;

/// How far the replicas and the coordinator are, as a report tells it.
#[derive(Debug, Drop)]
pub struct Standing {
    /// One line for each replica, by shard, then replica.
    pub replicas: Row<ReplicaLine>,
    /// The coordinator's epoch.
    pub current: Epoch,
    /// The epoch that the coordinator is going to.
    pub target: Epoch,
    /// How many packets the coordinator has found in its epoch.
    pub found: u32,
    /// How many places the coordinator has dropped in its epoch.
    pub dropped: u32,
}
