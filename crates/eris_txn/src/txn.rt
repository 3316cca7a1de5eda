use crate::op::Op;
use crate::plan::Plan;
use eris_base::{Dup, NoMemory, Row, Same};
use std::alloc::Global;

/// A transaction as a client submits it.
#[derive(Debug, Drop)]
pub enum Txn {
    /// An independent transaction, whose operations are all there from the start.
    Whole(Row<Op>),
    /// A general transaction, which reads before it decides what it writes.
    General(Plan),
}

impl Dup for Txn {
    fn copy(&self, alloc: Global) -> Result<Txn, NoMemory> {
        match self {
            Txn::Whole(ops) => Ok(Txn::Whole(ops.copy(alloc)?)),
            Txn::General(plan) => Ok(Txn::General(plan.copy(alloc)?)),
        }
    }
}

impl Same for Txn {
    fn same(&self, other: &Txn) -> bool {
        match (self, other) {
            (Txn::Whole(some), Txn::Whole(others)) => some.same(others),
            (Txn::General(one), Txn::General(another)) => one.same(another),
            _ => false,
        }
    }
}
