//! What a client asks the sequencer to stamp.
ghost use Rattle.std.specs.Prelude.{◌≡◌, ◌+◌, ◌<◌, ◌^◌, [], ◌∷◌, None, Some, true, is_some, IfOk, IfSome, OnErr, OnOk};
ghost use Rattle.eris_txn.specs.declared.history.HistoryEvent.TheVariants as events;
ghost use Rattle.eris_rules.specs.ClientStates.{begun_half, body_of, transaction_at, with_transaction};
ghost use Rattle.eris_rules.specs.Clients.{abort, ask_for, asks_again, own_id, retry, submit};
ghost use Rattle.eris_client.specs.ClientValues.{after};

use crate::courses::{begun, body_of, course_of};
use crate::state::State;
use eris_base::{NoMemory, Node, Row, TxnId};
use eris_msg::{Message, Outgoing};
use eris_rules::{Course, Transaction};
use eris_txn::{HistoryEvent, Key, Txn};

/// What a step sends, and what happened by it.
pub type Step = (Row<Outgoing>, Option<HistoryEvent>);

impl State {
    /// Nothing is sent, and nothing happened.
    pub fn nothing(&self) -> Step
        ensures sends { result.0 ≡ [] }
        ensures event { result.1 ≡ None }
    {
        (Row::new(self.alloc), None)
    }

    /// A transaction of its own gets the next number, which is answered in its id.
    #[tactic(auto, unfolding(eris_rules::specs::Clients::submit, eris_rules::specs::Clients::begins_half, eris_rules::specs::ClientStates::with_transaction))]
    pub fn submit(&mut self, txn: Txn) -> Result<(TxnId, Row<Outgoing>), NoMemory>
        requires { self.old.state.submitted + 1 < 2 ^ 32 }
        ensures { IfOk result (λ out. (self.new, (out.1, Some (events.Submit out.0 txn)))
            ≡ after self.old (submit self.old.me self.old.state txn)) }
    {
        self.count();
        let id = self.own_id(self.submitted());
        let sends = self.begin(id, course_of(txn))?;
        Ok((id, sends))
    }

    /// Its transaction of this number is asked for again. None where it has none of this number.
    #[tactic(auto, unfolding(eris_rules::specs::Clients::retry))]
    pub fn retry(&self, number: u32) -> Result<Option<Row<Outgoing>>, NoMemory>
        ensures known { IfOk result (λ found. is_some found ≡ is_some (transaction_at self.now.state (own_id self.now.me number))) }
        ensures exact { IfOk result (λ found. IfSome found (λ sends. (self.now, (sends, None))
            ≡ after self.now (retry self.now.me self.now.state number))) }
        ensures err { OnErr result (is_some (transaction_at self.now.state (own_id self.now.me number)) ≡ true) }
    {
        let id = self.own_id(number);
        match self.transaction(id) {
            Some(transaction) => Ok(Some(self.ask_again(id, transaction)?)),
            None => Ok(None),
        }
    }

    /// The abort of another client's transaction is asked for; once more, where it was before.
    #[tactic(auto, unfolding(eris_rules::specs::Clients::abort, eris_rules::specs::Clients::begins_half))]
    pub fn abort(&mut self, id: TxnId, keys: Row<Key>) -> Result<Row<Outgoing>, NoMemory>
        ensures { IfOk result (λ sends. (self.new, (sends, None)) ≡ after self.old (abort self.old.me self.old.state id keys)) }
    {
        if let Some(transaction) = self.transaction(id) {
            return self.ask_again(id, transaction);
        }
        self.begin(id, Course::Aborting(keys))
    }

    /// An Ask of the present half again; none where the transaction is finished.
    #[tactic(auto, unfolding(eris_rules::specs::Clients::asks_again))]
    fn ask_again(&self, id: TxnId, transaction: &Transaction) -> Result<Row<Outgoing>, NoMemory>
        ensures { IfOk result (λ sends. (self.now, (sends, None)) ≡ after self.now (asks_again self.now.me self.now.state id transaction.now)) }
    {
        if transaction.finished {
            return Ok(Row::new(self.alloc));
        }
        self.ask(id, &transaction.course)
    }

    /// A half of a transaction begins, with an Ask of its body.
    pub fn begin(&mut self, id: TxnId, course: Course) -> Result<Row<Outgoing>, NoMemory>
        ensures state { OnOk result (self.new ≡ record self.old { state = with_transaction self.old.state id (begun_half course) }) }
        ensures sends { IfOk result (λ sends. sends ≡ ask_for self.old.me id (body_of course) ∷ []) }
    {
        let sends = self.ask(id, &course)?;
        self.put(id, begun(self.alloc, course))?;
        Ok(sends)
    }

    /// An Ask of the body of the half.
    fn ask(&self, id: TxnId, course: &Course) -> Result<Row<Outgoing>, NoMemory>
        ensures { IfOk result (λ sends. sends ≡ ask_for self.now.me id (body_of course.now) ∷ []) }
    {
        let body = body_of(self.alloc, course)?;
        let mut sends = Row::new(self.alloc);
        sends.push(Outgoing {
            to: Node::Sequencer,
            message: Message::Ask {
                asker: self.client,
                id,
                body,
            },
        })?;
        Ok(sends)
    }
}
