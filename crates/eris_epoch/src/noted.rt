use eris_base::ReplicaId;
use eris_log::Part;

/// The part that a replica of the part's shard sent.
#[derive(Debug, Drop)]
pub struct NotedPart {
    pub replica: ReplicaId,
    pub part: Part,
}
