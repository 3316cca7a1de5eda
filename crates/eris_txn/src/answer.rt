use crate::op::OpAnswer;
use eris_base::{Dup, NoMemory, Row, Same};
use std::alloc::Global;

/// What a transaction, or a shard for its part of one, is answered.
#[derive(Debug, Drop)]
pub enum Answer {
    /// The answers of operations, in order.
    Ops(Row<OpAnswer>),
    /// The values of locked keys, in order; None where a key has no value.
    Values(Row<Option<u64>>),
    /// A general transaction committed.
    Committed,
    /// A general transaction was aborted.
    Aborted,
}

impl Dup for Answer {
    fn copy(&self, alloc: Global) -> Result<Answer, NoMemory> {
        match self {
            Answer::Ops(answers) => Ok(Answer::Ops(answers.copy(alloc)?)),
            Answer::Values(values) => Ok(Answer::Values(values.copy(alloc)?)),
            Answer::Committed => Ok(Answer::Committed),
            Answer::Aborted => Ok(Answer::Aborted),
        }
    }
}

impl Same for Answer {
    fn same(&self, other: &Answer) -> bool {
        match (self, other) {
            (Answer::Ops(some), Answer::Ops(others)) => some.same(others),
            (Answer::Values(some), Answer::Values(others)) => some.same(others),
            (Answer::Committed, Answer::Committed) => true,
            (Answer::Aborted, Answer::Aborted) => true,
            _ => false,
        }
    }
}
