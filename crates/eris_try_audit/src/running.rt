ghost use Rattle.std.specs.Prelude.{◌≡◌, false};

use crate::reading::{Case, read_case};
use crate::txns::key;
use anyhow::Context;
use eris_audit::{OrderLine, SerialStore};
use eris_base::{NoMemory, TxnId};
use eris_txn::{Answer, HistoryEvent, Txn};
use std::alloc::Global;

/// What each line of the order is answered, and the values after it.
pub(crate) fn run(alloc: Global, items: &str) -> anyhow::Result<String> {
    let case = read_case(alloc, items)?;
    let mut store = SerialStore::new(alloc);
    let mut told = String::new(alloc);
    for line in case.order.as_slice() {
        let one = step(alloc, &mut store, &case, line)?;
        if !told.is_empty() {
            told.push_str(" | ")?;
        }
        told.push_str(one.as_str())?;
    }
    Ok(told)
}

fn step(
    alloc: Global,
    store: &mut SerialStore,
    case: &Case,
    line: &OrderLine,
) -> anyhow::Result<String> {
    let txn = find(case.history.as_slice(), line.id).context("no such transaction")?;
    let answer = answered(alloc, store, txn, line)?;
    let values = values(alloc, store)?;
    Ok(format!(in alloc; "{answer}: {values}")?)
}

/// The transaction that was submitted under the id.
fn find(history: &[HistoryEvent], id: TxnId) -> Option<&Txn> {
    for event in history {
        if let HistoryEvent::Submit(other, txn) = event
            && *other == id
        {
            return Some(txn);
        }
    }
    None
}

fn answered(
    alloc: Global,
    store: &mut SerialStore,
    txn: &Txn,
    line: &OrderLine,
) -> anyhow::Result<String> {
    if store.is_spent() {
        return Err(NoMemory.into());
    }
    match store.run(txn, line.outcome)? {
        Some(Answer::Ops(answers)) => Ok(format!(in alloc; "{:?}", answers.as_slice())?),
        Some(Answer::Values(values)) => Ok(format!(in alloc; "{:?}", values.as_slice())?),
        Some(answer) => Ok(format!(in alloc; "{answer:?}")?),
        None => Ok(format!(in alloc; "a guard fails")?),
    }
}

fn values(alloc: Global, store: &SerialStore) -> anyhow::Result<String> {
    if store.is_spent() {
        return Err(NoMemory.into());
    }
    let a = store.value_of(&key("0/a")?);
    let b = store.value_of(&key("1/b")?);
    let sum = store.total();
    Ok(format!(in alloc; "a {a:?}, b {b:?}, sum {sum}")?)
}
