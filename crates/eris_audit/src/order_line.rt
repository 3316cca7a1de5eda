use crate::outcome::Outcome;
use eris_base::{Dup, NoMemory, Same, Stamp, TxnId};
use std::alloc::Global;

/// A transaction's line in the order: what became of it, and the stamp at which it acted.
#[derive(Debug, Drop)]
pub struct OrderLine {
    pub id: TxnId,
    pub outcome: Outcome,
    pub stamp: Stamp,
}

impl Dup for OrderLine {
    fn copy(&self, alloc: Global) -> Result<OrderLine, NoMemory> {
        Ok(OrderLine {
            id: self.id,
            outcome: self.outcome,
            stamp: self.stamp.copy(alloc)?,
        })
    }
}

impl Same for OrderLine {
    fn same(&self, other: &OrderLine) -> bool {
        self.id == other.id && self.outcome == other.outcome && self.stamp.same(&other.stamp)
    }
}
