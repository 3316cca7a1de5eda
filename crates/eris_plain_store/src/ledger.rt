ghost use Rattle.std.specs.Prelude.{◌≡◌, Some, None, IfOk, OnOk};
ghost use Rattle.eris_locks.specs.States.{note, decide, is_decided};
ghost use Rattle.eris_plain_store.specs.Ledgers.{recorded_in, decided_in};

use eris_base::{Dup, NoMemory, Phase, Row, TxnId, is_same_id};
use eris_locks::is_same_phase;
use eris_txn::Answer;
use std::alloc::Global;

/// An answer that is kept, by the id and the phase that it answered.
#[derive(Drop)]
pub(crate) struct Recorded {
    pub id: TxnId,
    pub phase: Phase,
    pub answer: Answer,
}

/// The outcome of an id.
#[derive(Drop)]
pub(crate) struct Decided {
    pub id: TxnId,
    pub outcome: Answer,
}

impl Dup for Recorded {
    fn copy(&self, alloc: Global) -> Result<Recorded, NoMemory> {
        Ok(Recorded {
            id: self.id,
            phase: self.phase,
            answer: self.answer.copy(alloc)?,
        })
    }
}

impl Dup for Decided {
    fn copy(&self, alloc: Global) -> Result<Decided, NoMemory> {
        Ok(Decided {
            id: self.id,
            outcome: self.outcome.copy(alloc)?,
        })
    }
}

/// Records an answer, in front of the older ones.
pub(crate) fn note(
    recorded: &mut Row<Recorded>,
    id: TxnId,
    phase: Phase,
    answer: Answer,
) -> Result<(), NoMemory>
    ensures { OnOk result (recorded_in recorded.new ≡ note (recorded_in recorded.old) id phase answer) }
{
    recorded.insert(0, Recorded { id, phase, answer })
}

/// Decides an id, in front of the older decisions.
pub(crate) fn decide(decided: &mut Row<Decided>, id: TxnId, outcome: Answer) -> Result<(), NoMemory>
    ensures { OnOk result (decided_in decided.new ≡ decide (decided_in decided.old) id outcome) }
{
    decided.insert(0, Decided { id, outcome })
}

/// A copy of the answer that is recorded for an id and a phase, if there is one.
pub(crate) fn find_recorded(
    alloc: Global,
    recorded: &[Recorded],
    id: TxnId,
    phase: Phase,
) -> Result<Option<Answer>, NoMemory>
    ensures { IfOk result (λ found. found ≡ recorded_in recorded.now id phase) }
{
    for entry in recorded {
        if is_same_id(entry.id, id) && is_same_phase(entry.phase, phase) {
            return Ok(Some(entry.answer.copy(alloc)?));
        }
    }
    Ok(None)
}

/// A copy of the outcome of an id, if it is decided.
pub(crate) fn find_decided(
    alloc: Global,
    decided: &[Decided],
    id: TxnId,
) -> Result<Option<Answer>, NoMemory>
    ensures { IfOk result (λ found. found ≡ decided_in decided.now id) }
{
    for entry in decided {
        if is_same_id(entry.id, id) {
            return Ok(Some(entry.outcome.copy(alloc)?));
        }
    }
    Ok(None)
}

/// Whether an id is decided.
pub(crate) fn is_decided(decided: &[Decided], id: TxnId) -> bool
    ensures { result ≡ is_decided (decided_in decided.now id) }
{
    for entry in decided {
        if is_same_id(entry.id, id) {
            return true;
        }
    }
    false
}
