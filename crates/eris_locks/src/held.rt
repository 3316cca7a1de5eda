use eris_base::{Dup, NoMemory, Row, TxnId};
use eris_txn::Lock;
use std::alloc::Global;

/// A preliminary that was executed and isn't decided yet, with its locks on the shard.
#[derive(Debug, Drop)]
pub struct Held {
    pub id: TxnId,
    pub locks: Row<Lock>,
}

impl Dup for Held {
    fn copy(&self, alloc: Global) -> Result<Held, NoMemory> {
        Ok(Held {
            id: self.id,
            locks: self.locks.copy(alloc)?,
        })
    }
}
