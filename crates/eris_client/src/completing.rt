//! What a client does when a half of a transaction is complete.
ghost use Rattle.std.specs.Prelude.{◌≡◌, true, length, IfOk};
ghost use Rattle.eris_rules.specs.declared.transaction.Course.TheVariants as courses;
ghost use Rattle.eris_rules.specs.ClientStates.{body_of};
ghost use Rattle.eris_rules.specs.Clients.{completes, concludes, finishes, has_concluded, has_read, is_executed, is_told, item_shards};
ghost use Rattle.eris_rules.specs.Votes.{is_complete};
ghost use Rattle.eris_client.specs.Answered.{IsAnswered};
ghost use Rattle.eris_client.specs.ClientValues.{after};

use crate::asking::Step;
use crate::assembling::{all_answers, all_op_answers, all_values, outcome_of, some_aborted};
use crate::state::State;
use eris_base::{Dup, NoMemory, Row, ShardId, TxnId};
use eris_general::Pending;
use eris_rules::{Course, Transaction};
use eris_txn::{Answer, HistoryEvent, Plan};

impl State {
    /// A half is complete. It needs the shards of the half's items.
    pub fn complete(
        &mut self,
        id: TxnId,
        transaction: Transaction,
        shards: &[ShardId],
    ) -> Result<Step, NoMemory>
        requires shards { shards.now ≡ item_shards (body_of transaction.course) }
        requires complete { is_complete transaction ≡ true }
        requires answered { IsAnswered transaction }
        ensures { IfOk result (λ out. (self.new, out)
            ≡ after self.old (completes self.old.me self.old.state id transaction transaction.course)) }
    {
        match &transaction.course {
            Course::Executing(_) => self.execute(id, transaction, shards),
            Course::Reading(plan) => {
                let plan = plan.copy(self.alloc)?;
                self.read(id, transaction, plan, shards)
            }
            Course::Concluding(plan, _) => {
                let plan = plan.copy(self.alloc)?;
                self.conclude(id, transaction, plan)
            }
            Course::Aborting(_) => self.be_told(id, transaction),
        }
    }

    /// The operations are executed: their answers are whole.
    #[tactic(auto, unfolding(eris_rules::specs::Clients::is_executed, eris_rules::specs::Clients::all_op_answers))]
    fn execute(
        &mut self,
        id: TxnId,
        transaction: Transaction,
        shards: &[ShardId],
    ) -> Result<Step, NoMemory>
        requires shards { shards.now ≡ item_shards (body_of transaction.course) }
        requires answered { IsAnswered transaction }
        ensures { IfOk result (λ out. (self.new, out) ≡ after self.old (is_executed self.old.state id transaction)) }
    {
        let answers = all_op_answers(self.alloc, shards, transaction.counted.as_slice())?;
        self.finish(
            id,
            transaction,
            HistoryEvent::Answer(id, Answer::Ops(answers)),
        )
    }

    /// The outcome of a general transaction of its own.
    #[tactic(auto, unfolding(eris_rules::specs::Clients::has_concluded))]
    fn conclude(
        &mut self,
        id: TxnId,
        transaction: Transaction,
        plan: Plan,
    ) -> Result<Step, NoMemory>
        requires { IsAnswered transaction }
        ensures { IfOk result (λ out. (self.new, out) ≡ after self.old (has_concluded self.old.state id transaction)) }
    {
        let answers = all_answers(self.alloc, transaction.counted.as_slice())?;
        let mut pending = Pending::new(self.alloc, plan);
        let outcome = pending.on_outcome(answers.as_slice());
        self.finish(id, transaction, HistoryEvent::Answer(id, outcome))
    }

    /// The outcome of another client's transaction.
    #[tactic(auto, unfolding(eris_rules::specs::Clients::is_told))]
    fn be_told(&mut self, id: TxnId, transaction: Transaction) -> Result<Step, NoMemory>
        requires { IsAnswered transaction }
        ensures { IfOk result (λ out. (self.new, out) ≡ after self.old (is_told self.old.me self.old.state id transaction)) }
    {
        let outcome = outcome_of(transaction.counted.as_slice());
        let event = HistoryEvent::Told(self.client, id, outcome);
        self.finish(id, transaction, event)
    }

    /// The transaction is finished, and this happened.
    #[tactic(auto, unfolding(eris_rules::specs::Clients::finishes))]
    fn finish(
        &mut self,
        id: TxnId,
        transaction: Transaction,
        event: HistoryEvent,
    ) -> Result<Step, NoMemory>
        requires { IsAnswered transaction }
        ensures { IfOk result (λ out. (self.new, out) ≡ after self.old (finishes self.old.state id transaction event)) }
    {
        let mut finished = transaction;
        finished.finished = true;
        self.put(id, finished)?;
        Ok((Row::new(self.alloc), Some(event)))
    }

    /// The values are read, and decide; where some shard aborted the half, all is over.
    #[tactic(auto, unfolding(eris_rules::specs::Clients::has_read, eris_rules::specs::Clients::all_values))]
    fn read(
        &mut self,
        id: TxnId,
        transaction: Transaction,
        plan: Plan,
        shards: &[ShardId],
    ) -> Result<Step, NoMemory>
        requires shards { shards.now ≡ item_shards (body_of transaction.course) }
        requires reading { transaction.course ≡ courses.Reading plan }
        requires complete { is_complete transaction ≡ true }
        requires answered { IsAnswered transaction }
        ensures { IfOk result (λ out. (self.new, out) ≡ after self.old (has_read self.old.me self.old.state id transaction plan)) }
    {
        let counted = transaction.counted.as_slice();
        if some_aborted(counted) {
            return self.finish(id, transaction, HistoryEvent::Answer(id, Answer::Aborted));
        }
        let values = all_values(self.alloc, shards, counted)?;
        self.decide(id, plan, values)
    }

    /// The second half begins: it commits the plan's writes of these values where its guards hold.
    #[tactic(auto, unfolding(eris_rules::specs::Clients::concludes, eris_rules::specs::Clients::begins_half))]
    fn decide(&mut self, id: TxnId, plan: Plan, values: Row<Option<u64>>) -> Result<Step, NoMemory>
        requires { length values ≡ length plan.keys }
        ensures { IfOk result (λ out. (self.new, out) ≡ after self.old (concludes self.old.me self.old.state id plan values)) }
    {
        let mut pending = Pending::new(self.alloc, plan.copy(self.alloc)?);
        let body = pending.on_prelim(values.as_slice())?;
        let sends = self.begin(id, Course::Concluding(plan, body))?;
        Ok((sends, Some(HistoryEvent::Read(id, values))))
    }
}
