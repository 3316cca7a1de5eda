ghost use Rattle.std.specs.Prelude.{◌≡◌, true, false, length, IfOk, OnOk, OnErr, IsTrue};
ghost use Rattle.std.specs.List.{list_any};
ghost use Rattle.eris_txn.specs.Plans.{value_in};
ghost use Rattle.eris_txn.specs.Sizes.{body_has_size};
ghost use Rattle.eris_general.specs.Outcomes.{conclusion_of, is_aborted, outcome_of};

use eris_base::{NoMemory, Row};
use eris_txn::{Answer, Body, Plan};
use std::alloc::Global;
use std::marker::Model;

/// A general transaction whose first half is under way: its plan, and whether its second half was made.
#[derive(Debug, Drop)]
pub struct Pending {
    alloc: Global,
    plan: Plan,
    called: bool,
}

impl Model for Pending {
    ghost use Rattle.eris_general.specs.PendingValues.{PendingValue};

    ghost Value = { PendingValue };

    ghost view = { λ p. record { plan = p.plan; called = p.called } };
}

impl Pending {
    /// The course of this plan, whose second half isn't made yet. It takes no memory.
    pub fn new(alloc: Global, plan: Plan) -> Pending
        ensures { result ≡ record { plan = plan; called = false } }
    {
        Pending {
            alloc,
            plan,
            called: false,
        }
    }

    /// The second half, where the plan's keys had these values, which stand in the order of the keys;
    /// None means absent. It is a commit of the plan's keys and writes exactly where the guards hold,
    /// else an abort of the keys. It may be made once.
    ///
    /// # Errors
    ///
    /// After [`NoMemory`] the value is as before, so the call may be made again.
    pub fn on_prelim(&mut self, values: &[Option<u64>]) -> Result<Body, NoMemory>
        requires uncalled { self.old.called ≡ false }
        requires as_many { length values.now ≡ length self.old.plan.keys }
        ensures body { IfOk result (λ body. body ≡ conclusion_of self.old.plan (value_in self.old.plan.keys values.now)) }
        ensures size { IfOk result (λ body. IsTrue (body_has_size body)) }
        ensures ok { OnOk result (self.new ≡ record self.old { called = true }) }
        ensures err { OnErr result (self.new ≡ self.old) }
    {
        let writes = self.plan.writes(values)?;
        let mut keys = Row::new(self.alloc);
        keys.append(self.plan.keys())?;
        self.called = true;
        match writes {
            Some(writes) => Ok(Body::Commit(keys, writes)),
            None => Ok(Body::Abort(keys)),
        }
    }

    /// The outcome by the shards' answers to the second half: committed exactly where none of them is
    /// `Aborted`, else aborted. It takes no memory.
    pub fn on_outcome(&mut self, answers: &[Answer]) -> Answer
        ensures outcome { result ≡ outcome_of answers.now }
        ensures same { self.new ≡ self.old }
    {
        if some_aborted(answers) {
            Answer::Aborted
        } else {
            Answer::Committed
        }
    }
}

fn some_aborted(answers: &[Answer]) -> bool
    ensures { result ≡ list_any is_aborted answers.now }
{
    answers.iter().any(|answer| is_aborted(answer))
}

/// Whether the answer is that of an abort. It takes no memory.
pub fn is_aborted(answer: &Answer) -> bool
    ensures { result ≡ is_aborted answer.now }
{
    matches!(answer, Answer::Aborted)
}
