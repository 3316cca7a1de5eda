//! What a client does with a vote and with a late answer.
ghost use Rattle.std.specs.Prelude.{◌≡◌, IfOk};
ghost use Rattle.eris_rules.specs.ClientStates.{body_of, with_transaction};
ghost use Rattle.eris_rules.specs.Clients.{goes_on, hears_late_of, hears_vote_of, item_shards, late_row, vote_row};
ghost use Rattle.eris_client.specs.Answered.{IsAnswered};
ghost use Rattle.eris_client.specs.ClientValues.{after};

use crate::asking::Step;
use crate::counting::{add_late, add_vote, is_complete};
use crate::courses::item_shards;
use crate::fitting::{late_fits, vote_fits, waits_for};
use crate::state::State;
use eris_base::{NoMemory, Phase, ShardId, TxnId};
use eris_rules::{Transaction, Vote};
use eris_txn::Answer;

impl State {
    /// A vote comes. The transaction is taken out, and put back as it then is.
    #[tactic(auto, unfolding(eris_rules::specs::Clients::vote_row))]
    pub fn vote(&mut self, id: TxnId, phase: Phase, vote: Vote) -> Result<Step, NoMemory>
        ensures { IfOk result (λ out. (self.new, out) ≡ after self.old (vote_row self.old.me self.old.state id phase vote)) }
    {
        match self.take(id) {
            Some(transaction) => self.hear_vote(id, phase, vote, transaction),
            None => Ok(self.nothing()),
        }
    }

    /// A transaction that was taken out hears a vote.
    #[tactic(auto, using(crate::proofs::Taken::goes_on_taken), unfolding(eris_rules::specs::Clients::hears_vote_of, eris_rules::specs::Votes::with_vote))]
    fn hear_vote(
        &mut self,
        id: TxnId,
        phase: Phase,
        vote: Vote,
        transaction: Transaction,
    ) -> Result<Step, NoMemory>
        requires { IsAnswered transaction }
        ensures { IfOk result (λ out. (self.new, out) ≡ after self.old
            (hears_vote_of self.old.me (with_transaction self.old.state id transaction) id phase vote transaction)) }
    {
        let shards = item_shards(self.alloc, &transaction.course)?;
        let f = self.config.f();
        if waits_for(&transaction, phase)
            && vote_fits(f, &transaction.course, shards.as_slice(), &vote)
        {
            let mut noted = transaction;
            add_vote(self.alloc, f, &mut noted, vote)?;
            return self.go_on(id, noted, shards.as_slice());
        }
        self.put(id, transaction)?;
        Ok(self.nothing())
    }

    /// A late answer comes.
    #[tactic(auto, unfolding(eris_rules::specs::Clients::late_row))]
    pub fn late(
        &mut self,
        id: TxnId,
        phase: Phase,
        shard: ShardId,
        answer: Answer,
    ) -> Result<Step, NoMemory>
        ensures { IfOk result (λ out. (self.new, out) ≡ after self.old (late_row self.old.me self.old.state id phase shard answer)) }
    {
        match self.take(id) {
            Some(transaction) => self.hear_late(id, phase, shard, answer, transaction),
            None => Ok(self.nothing()),
        }
    }

    /// A transaction that was taken out hears a late answer.
    #[tactic(auto, using(crate::proofs::Taken::goes_on_taken), unfolding(eris_rules::specs::Clients::hears_late_of, eris_rules::specs::Votes::with_late))]
    fn hear_late(
        &mut self,
        id: TxnId,
        phase: Phase,
        shard: ShardId,
        answer: Answer,
        transaction: Transaction,
    ) -> Result<Step, NoMemory>
        requires { IsAnswered transaction }
        ensures { IfOk result (λ out. (self.new, out) ≡ after self.old
            (hears_late_of self.old.me (with_transaction self.old.state id transaction) id phase shard answer transaction)) }
    {
        let shards = item_shards(self.alloc, &transaction.course)?;
        if waits_for(&transaction, phase)
            && late_fits(&transaction.course, shards.as_slice(), shard, &answer)
        {
            let mut noted = transaction;
            add_late(&mut noted, shard, answer)?;
            return self.go_on(id, noted, shards.as_slice());
        }
        self.put(id, transaction)?;
        Ok(self.nothing())
    }

    /// The transaction waits on, or its half is complete.
    #[tactic(auto, unfolding(eris_rules::specs::Clients::goes_on))]
    fn go_on(
        &mut self,
        id: TxnId,
        transaction: Transaction,
        shards: &[ShardId],
    ) -> Result<Step, NoMemory>
        requires shards { shards.now ≡ item_shards (body_of transaction.course) }
        requires answered { IsAnswered transaction }
        ensures { IfOk result (λ out. (self.new, out) ≡ after self.old (goes_on self.old.me self.old.state id transaction)) }
    {
        if is_complete(&transaction, shards) {
            return self.complete(id, transaction, shards);
        }
        self.put(id, transaction)?;
        Ok(self.nothing())
    }
}
