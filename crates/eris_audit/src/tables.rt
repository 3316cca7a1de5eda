ghost use Rattle.std.specs.Prelude.{◌≡◌, ◌<◌, length, IfSome, [], ◌∷◌, ◌++◌, false, IfOk, OnOk};
ghost use Rattle.std.specs.Option.{option_map};
ghost use Rattle.eris_audit.specs.Histories.{first_submit};
ghost use Rattle.eris_audit.specs.Lines.{has_line, outcome_in};
ghost use Rattle.eris_audit.specs.Tables.{place_in, AreSubmits};

use crate::outcome::Outcome;
use eris_base::{NoMemory, TxnId};
use eris_txn::{HistoryEvent, Txn};
use indexmap::IndexMap;
use std::alloc::Global;
use std::marker::Model;

/// The lines of an order in their order, found by their ids. No id stands twice.
#[derive(Drop)]
pub(crate) struct LineTable {
    outcomes: IndexMap<TxnId, Outcome>,
}

impl Model for LineTable {
    ghost use Rattle.std.specs.Prelude.{List};
    ghost use Rattle.eris_audit.specs.Lines.{Line};
    ghost use Rattle.eris_audit.specs.Tables.{lines_from};

    ghost Value = { List Line };

    ghost view = { λ table. lines_from table.outcomes.entries };
}

impl LineTable {
    /// The table of no line. It takes no memory.
    pub fn new(alloc: Global) -> LineTable
        ensures { result ≡ [] }
    {
        LineTable {
            outcomes: IndexMap::new(alloc),
        }
    }

    /// The place of an id's line, from 0, or None where it has none. It takes no memory.
    pub fn place_of(&self, id: &TxnId) -> Option<usize>
        ensures place { result ≡ place_in self.now id.now }
        ensures within { IfSome result (λ place. place < length self.now) }
    {
        self.outcomes.get_index_of(id)
    }

    /// Whether the id has a line. It takes no memory.
    pub fn has(&self, id: &TxnId) -> bool
        ensures { result ≡ has_line self.now id.now }
    {
        self.outcomes.contains_key(id)
    }

    /// The outcome of an id's line, or None where it has none. It takes no memory.
    pub fn outcome_of(&self, id: &TxnId) -> Option<Outcome>
        ensures { result ≡ outcome_in self.now id.now }
    {
        self.outcomes.get(id).copied()
    }

    /// Adds a line at the end, of an id that has none.
    pub fn add(&mut self, id: TxnId, outcome: Outcome) -> Result<(), NoMemory>
        requires { has_line self.old id ≡ false }
        ensures { OnOk result (self.new ≡ self.old ++ record { id = id; outcome = outcome } ∷ []) }
    {
        self.outcomes.insert(id, outcome)?;
        Ok(())
    }
}

/// A history with the transaction of each id that was submitted; contracts see the history.
#[derive(Drop)]
pub(crate) struct SubmitTable<'a> {
    events: &'a [HistoryEvent],
    txns: IndexMap<TxnId, &'a Txn>,
}

impl<'a> Model for SubmitTable<'a> {
    ghost use Rattle.std.specs.Prelude.{List};
    ghost use Rattle.eris_txn.specs.declared.history.HistoryEvent.{HistoryEvent};
    ghost use Rattle.eris_audit.specs.Tables.{AreSubmits};

    ghost Value = { List HistoryEvent };

    ghost view = { λ table. table.events.now };

    ghost invariant = { λ table. AreSubmits table.events.now table.txns.entries };
}

impl<'a> SubmitTable<'a> {
    /// The table of a history, with the transaction of each id's first submit.
    pub fn new(alloc: Global, events: &'a [HistoryEvent]) -> Result<SubmitTable<'a>, NoMemory>
        ensures { IfOk result (λ table. table ≡ events.now) }
    {
        let txns = submits_of(alloc, events)?;
        Ok(SubmitTable { events, txns })
    }

    /// The history. It takes no memory.
    pub fn events(&self) -> &'a [HistoryEvent]
        ensures { result.now ≡ self.now }
    {
        self.events
    }

    /// The transaction of an id's first submit, or None where it was never submitted. It takes no memory.
    pub fn txn_of(&self, id: &TxnId) -> Option<&'a Txn>
        ensures { option_map (λ txn. txn.now) result ≡ first_submit self.now id.now }
    {
        self.txns.get(id).copied()
    }
}

fn submits_of<'a>(
    alloc: Global,
    events: &'a [HistoryEvent],
) -> Result<IndexMap<TxnId, &'a Txn>, NoMemory>
    ensures { IfOk result (λ txns. AreSubmits events.now txns.entries) }
{
    let mut txns = IndexMap::new(alloc);
    for event in events {
        add_event(&mut txns, event)?;
    }
    Ok(txns)
}

fn add_event<'a>(
    txns: &mut IndexMap<TxnId, &'a Txn>,
    event: &'a HistoryEvent,
) -> Result<(), NoMemory>
    ensures { OnOk result ((before : _) → AreSubmits before txns.old.entries → AreSubmits (before ++ event.now ∷ []) txns.new.entries) }
{
    let HistoryEvent::Submit(id, txn) = event else {
        return Ok(());
    };
    if txns.contains_key(id) {
        return Ok(());
    }
    txns.insert(*id, txn)?;
    Ok(())
}
