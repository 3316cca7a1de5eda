use eris_base::{ClientId, Dup, NoMemory, Phase, Place, TxnId};
use eris_txn::Answer;
use std::alloc::Global;

/// An answer that a step of a shard's store gives: to which phase of which transaction, and to whom.
#[derive(Debug, Drop)]
pub struct Done {
    pub id: TxnId,
    pub phase: Phase,
    pub asker: ClientId,
    pub answer: Answer,
    /// The place of the packet whose step gave the answer.
    pub at: Place,
    /// Whether the answer is to a packet that waited, and not to the one that was stepped.
    pub late: bool,
}

impl Dup for Done {
    fn copy(&self, alloc: Global) -> Result<Done, NoMemory> {
        Ok(Done {
            id: self.id,
            phase: self.phase,
            asker: self.asker,
            answer: self.answer.copy(alloc)?,
            at: self.at,
            late: self.late,
        })
    }
}
