ghost use Rattle.std.specs.Prelude.{◌≡◌, [], Some, None, IfOk, OnOk};
ghost use Rattle.eris_locks.specs.States.{decide, is_decided, note};
ghost use Rattle.eris_store.specs.Ledgers.{answer_in, recorded_in};

use crate::maps::copied;
use eris_base::{Dup, NoMemory, Phase, TxnId};
use eris_txn::Answer;
use std::alloc::Global;
use std::collections::BTreeMap;
use std::marker::Model;

/// Answers by id: for each id at most one, the one that was put last.
#[derive(Drop)]
pub(crate) struct ById {
    alloc: Global,
    entries: BTreeMap<TxnId, Answer>,
}

impl Model for ById {
    ghost use Rattle.std.specs.Prelude.{List};
    ghost use Rattle.eris_base.specs.declared.ids.TxnId.{TxnId};
    ghost use Rattle.eris_txn.specs.declared.answer.Answer.{Answer};

    ghost Value = { List (TxnId × Answer) };

    ghost view = { λ kept. kept.entries.entries };
}

impl ById {
    pub fn new(alloc: Global) -> ById
        ensures { result ≡ [] }
    {
        ById {
            alloc,
            entries: BTreeMap::new(alloc),
        }
    }

    pub fn copy(&self) -> Result<ById, NoMemory>
        ensures { IfOk result (λ made. made ≡ self.now) }
    {
        Ok(ById {
            alloc: self.alloc,
            entries: copied(self.alloc, &self.entries)?,
        })
    }

    /// Puts the answer of an id, in the place of an older one.
    pub fn put(&mut self, id: TxnId, answer: Answer) -> Result<(), NoMemory>
        ensures { OnOk result (answer_in self.new ≡ decide (answer_in self.old) id answer) }
    {
        self.entries.insert(id, answer)?;
        Ok(())
    }

    /// A copy of the answer of an id, if it has one.
    pub fn find(&self, id: TxnId) -> Result<Option<Answer>, NoMemory>
        ensures { IfOk result (λ found. found ≡ answer_in self.now id) }
    {
        match self.entries.get(&id) {
            Some(answer) => Ok(Some(answer.copy(self.alloc)?)),
            None => Ok(None),
        }
    }

    /// Whether an id has an answer.
    pub fn has(&self, id: TxnId) -> bool
        ensures { result ≡ is_decided (answer_in self.now id) }
    {
        self.entries.contains_key(&id)
    }
}

/// The answers that are kept, by phase and id. No step of a store records one of phase Conclude, since an
/// outcome is decided, but what is recorded is told of any phase.
#[derive(Drop)]
pub(crate) struct Answers {
    whole: ById,
    prelim: ById,
    conclude: ById,
}

impl Model for Answers {
    ghost use Rattle.eris_store.specs.Ledgers.{AnswersValue};

    ghost Value = { AnswersValue };

    ghost view = { λ answers. record { whole = answers.whole; prelim = answers.prelim; conclude = answers.conclude } };
}

impl Answers {
    pub fn new(alloc: Global) -> Answers
        ensures { result ≡ record { whole = []; prelim = []; conclude = [] } }
    {
        Answers {
            whole: ById::new(alloc),
            prelim: ById::new(alloc),
            conclude: ById::new(alloc),
        }
    }

    pub fn copy(&self) -> Result<Answers, NoMemory>
        ensures { IfOk result (λ made. made ≡ self.now) }
    {
        Ok(Answers {
            whole: self.whole.copy()?,
            prelim: self.prelim.copy()?,
            conclude: self.conclude.copy()?,
        })
    }

    /// Records an answer, in the place of an older one.
    pub fn note(&mut self, id: TxnId, phase: Phase, answer: Answer) -> Result<(), NoMemory>
        ensures { OnOk result (recorded_in self.new ≡ note (recorded_in self.old) id phase answer) }
    {
        match phase {
            Phase::Whole => self.whole.put(id, answer),
            Phase::Prelim => self.prelim.put(id, answer),
            Phase::Conclude => self.conclude.put(id, answer),
        }
    }

    /// A copy of the answer that is recorded for an id and a phase, if there is one.
    pub fn find(&self, id: TxnId, phase: Phase) -> Result<Option<Answer>, NoMemory>
        ensures { IfOk result (λ found. found ≡ recorded_in self.now id phase) }
    {
        match phase {
            Phase::Whole => self.whole.find(id),
            Phase::Prelim => self.prelim.find(id),
            Phase::Conclude => self.conclude.find(id),
        }
    }
}
