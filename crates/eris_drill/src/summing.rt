ghost use Rattle.std.specs.Prelude.{◌≡◌, ◌∷◌, [], IfOk, OnOk, false, is_err};
ghost use Rattle.std.specs.Option.{option_or};
ghost use Rattle.eris_base.specs.declared.ids.TxnId.{TxnId};
ghost use Rattle.eris_txn.specs.KeyValues.{values_of};
ghost use Rattle.eris_audit.specs.Histories.{first_submit};
ghost use Rattle.eris_audit.specs.SerialRun.{left_by_step};
ghost use Rattle.eris_drill.specs.Submitted.{kept_of, kept_or_nothing, with_first};
ghost use Rattle.eris_drill.specs.Summaries.{IsTotal, values_left};

use eris_audit::{OrderLine, SerialStore};
use eris_base::{Dup, NoMemory, TxnId};
use eris_event::Report;
use eris_txn::{HistoryEvent, Txn};
use std::alloc::Global;
use std::collections::BTreeMap;

// Keeps the transaction of an id, unless one is kept already.
fn keep(
    alloc: Global,
    kept: &mut BTreeMap<TxnId, Txn>,
    id: TxnId,
    txn: &Txn,
) -> Result<(), NoMemory>
    ensures { OnOk result ((other : TxnId) → kept_of kept.new.entries other ≡ with_first (kept_of kept.old.entries) id txn.now other) }
{
    if !kept.contains_key(&id) {
        kept.insert(id, txn.copy(alloc)?)?;
    }
    Ok(())
}

// Keeps what the event submits.
fn keep_submit(
    alloc: Global,
    kept: &mut BTreeMap<TxnId, Txn>,
    event: &HistoryEvent,
) -> Result<(), NoMemory>
    ensures { OnOk result ((id : TxnId) → kept_of kept.new.entries id ≡ option_or (kept_of kept.old.entries id) (first_submit (event.now ∷ []) id)) }
{
    match event {
        HistoryEvent::Submit(id, txn) => keep(alloc, kept, *id, txn),
        HistoryEvent::Read(_, _) => Ok(()),
        HistoryEvent::Answer(_, _) => Ok(()),
        HistoryEvent::Told(_, _, _) => Ok(()),
    }
}

// The transactions of a history, each the one of its id's first submit.
fn submitted(alloc: Global, history: &[HistoryEvent]) -> Result<BTreeMap<TxnId, Txn>, NoMemory>
    ensures { IfOk result (λ kept. (id : TxnId) → kept_of kept.entries id ≡ first_submit history.now id) }
{
    let mut kept = BTreeMap::new(alloc);
    for event in history {
        keep_submit(alloc, &mut kept, event)?;
    }
    Ok(kept)
}

// Runs the transaction of a line; one that was never submitted does nothing.
fn run_line(
    store: &mut SerialStore,
    kept: &BTreeMap<TxnId, Txn>,
    line: &OrderLine,
) -> Result<(), NoMemory>
    requires unspent { store.old.spent ≡ false }
    ensures left { OnOk result (values_of store.new.entries ≡ left_by_step (kept_or_nothing kept.now.entries line.now.id) line.now.outcome (values_of store.old.entries)) }
    ensures spent { store.new.spent ≡ is_err result }
{
    match kept.get(&line.id) {
        Some(txn) => {
            store.run(txn, line.outcome)?;
            Ok(())
        }
        None => Ok(()),
    }
}

/// The sum of all values, modulo 2^64, that the report's order leaves: its transactions run one after another over one
/// plain map in which no key has a value.
#[tactic(auto, unfolding(crate::specs::Summaries::values_left))]
pub fn total(alloc: Global, report: &Report) -> Result<u64, NoMemory>
    ensures { IfOk result (λ total. IsTotal (values_left report.now) total) }
{
    let kept = submitted(alloc, report.history.as_slice())?;
    let mut store = SerialStore::new(alloc);
    for line in report.order.as_slice() {
        run_line(&mut store, &kept, line)?;
    }
    Ok(store.total())
}
