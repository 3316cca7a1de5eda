use crate::answer::Answer;
use crate::txn::Txn;
use eris_base::{ClientId, Dup, NoMemory, Row, Same, TxnId};
use std::alloc::Global;

/// What happened at the clients, in the order in which it happened.
#[derive(Debug, Drop)]
pub enum HistoryEvent {
    /// A client submitted a transaction.
    Submit(TxnId, Txn),
    /// A general transaction learned the values of its locked keys.
    Read(TxnId, Row<Option<u64>>),
    /// A client got the answer of its transaction.
    Answer(TxnId, Answer),
    /// Another client, which had asked for an abort, was told the transaction's outcome.
    Told(ClientId, TxnId, Answer),
}

impl Dup for HistoryEvent {
    fn copy(&self, alloc: Global) -> Result<HistoryEvent, NoMemory> {
        match self {
            HistoryEvent::Submit(id, txn) => Ok(HistoryEvent::Submit(*id, txn.copy(alloc)?)),
            HistoryEvent::Read(id, values) => Ok(HistoryEvent::Read(*id, values.copy(alloc)?)),
            HistoryEvent::Answer(id, answer) => Ok(HistoryEvent::Answer(*id, answer.copy(alloc)?)),
            HistoryEvent::Told(client, id, answer) => Ok(HistoryEvent::Told(
                *client,
                *id,
                answer.copy(alloc)?,
            )),
        }
    }
}

impl Same for HistoryEvent {
    fn same(&self, other: &HistoryEvent) -> bool {
        match (self, other) {
            (HistoryEvent::Submit(id, txn), HistoryEvent::Submit(another, rest)) => *id == *another
                && txn.same(rest),
            (HistoryEvent::Read(id, values), HistoryEvent::Read(another, rest)) => *id == *another
                && values.same(rest),
            (HistoryEvent::Answer(id, answer), HistoryEvent::Answer(another, rest)) => *id
                == *another
                && answer.same(rest),
            (HistoryEvent::Told(client, id, answer), HistoryEvent::Told(one, another, rest)) =>
                *client == *one && *id == *another && answer.same(rest),
            _ => false,
        }
    }
}
