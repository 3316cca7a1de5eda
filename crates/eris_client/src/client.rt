ghost use Rattle.std.specs.Prelude.{◌≡◌, ◌<◌, ◌==◌, ◌↔◌, [], false, true, is_some, Some, None, IfOk, IfSome, IsTrue, OnErr, OnOk, OnSome, Err};
ghost use Rattle.std.specs.Option.{option_copied};
ghost use Rattle.eris_txn.specs.declared.history.HistoryEvent.TheVariants as events;
ghost use Rattle.eris_msg.specs.declared.message.Message.{Message};
ghost use Rattle.eris_codec.specs.Fields as f;
ghost use Rattle.eris_msg.specs.Spellings.{IsSpelling};
ghost use Rattle.eris_rules.specs.ClientStates.{first_client, transaction_at};
ghost use Rattle.eris_rules.specs.Clients.{abort, client_step, own_id, retry, submit};
ghost use Rattle.eris_rules.specs.Happenings.{plan_of_transaction};
ghost use Rattle.eris_rules.specs.Known.{knows_client};
ghost use Rattle.eris_in_place.specs.MessageRanges.{SendsFit};
ghost use Rattle.eris_client.specs.ClientRanges.{PlanFits, TxnFits};

use crate::fault::RetryFault;
use crate::state::State;
use eris_base::{ClientId, Config, NoMemory, Row, TxnId};
use eris_msg::{DecodeFault, Message, Outgoing, decode};
use eris_txn::{HistoryEvent, Key, Plan, Txn};
use std::alloc::Global;
use std::marker::Model;

/// A client. It submits transactions, each of which the sequencer stamps, counts what the shards answer, and
/// concludes general ones by what they read; it may ask for the abort of another client's transaction.
/// Contracts see it as which client it is and the rules' state, beside whether it is spent.
#[derive(Debug, Drop)]
pub struct Client {
    alloc: Global,
    state: State,
    spent: bool,
}

impl Model for Client {
    ghost use Rattle.std.specs.Prelude.{◌≡◌, false};
    ghost use Rattle.eris_in_place.specs.MessageRanges.{SendsFit};
    ghost use Rattle.eris_client.specs.ClientRanges.{StateFits};
    ghost use Rattle.eris_client.specs.ClientValues.{ClientValue};

    ghost Value = { ClientValue };

    ghost view = { λ c. record { me = c.state.me; state = c.state.state; spent = c.spent } };

    ghost invariant = { λ c. c.spent ≡ false → StateFits c.state.me c.state.state };
}

impl Client {
    /// The client of this number, which must be of the config. It has no transaction. It takes no memory.
    pub fn new(alloc: Global, config: Config, client: ClientId) -> Client
        requires { IsTrue (knows_client config client) }
        ensures { result ≡ record { me = record { config = config; client = client }; state = first_client; spent = false } }
    {
        let clients = config.clients();
        prove!(client.0 < clients);
        Client {
            alloc,
            state: State::new(alloc, config, client),
            spent: false,
        }
    }

    /// Submits a transaction and answers its id, which has the next number, and what is sent: one Ask, as the
    /// rules have it. The rules also tell of the submission itself, with this id; whoever keeps the history
    /// notes that.
    ///
    /// # Errors
    ///
    /// After [`NoMemory`] the client is spent.
    pub fn submit(&mut self, txn: Txn) -> Result<(TxnId, Row<Outgoing>), NoMemory>
        requires unspent { self.old.spent ≡ false }
        requires room { self.old.state.submitted < 4294967295 }
        requires ranges { TxnFits txn }
        ensures ok { IfOk result (λ out. record { state = self.new.state; sends = out.1; event = Some (events.Submit out.0 txn) }
            ≡ submit self.old.me self.old.state txn) }
        ensures fits { IfOk result (λ out. SendsFit out.1) }
        ensures stays { OnOk result (self.new ≡ record self.old { state = self.new.state }) }
        ensures err { OnErr result (self.new.spent ≡ true) }
    {
        self.spent = true;
        let answer = self.state.submit(txn)?;
        self.spent = false;
        Ok(answer)
    }

    /// Asks again for the present half of its transaction of this number, and for nothing where that is
    /// answered. Nothing changes.
    ///
    /// # Errors
    ///
    /// `NoSuchTxn` exactly where it has no transaction of this number. After `NoMemory` the client is spent.
    pub fn retry(&mut self, number: u32) -> Result<Row<Outgoing>, RetryFault>
        requires { self.old.spent ≡ false }
        ensures ok { IfOk result (λ sends. record { state = self.new.state; sends = sends; event = None }
            ≡ retry self.old.me self.old.state number) }
        ensures no_such_txn { (result ≡ Err RetryFault.NoSuchTxn) ↔ (transaction_at self.old.state (own_id self.old.me number) ≡ None) }
        ensures fits { IfOk result (λ sends. SendsFit sends) }
        ensures stays { OnOk result (self.new ≡ record self.old { state = self.new.state }) }
        ensures none { result ≡ Err RetryFault.NoSuchTxn → self.new ≡ self.old }
        ensures no_memory { result ≡ Err RetryFault.NoMemory → self.new.spent ≡ true }
    {
        self.spent = true;
        let found = self.state.retry(number)?;
        self.spent = false;
        let Some(sends) = found else {
            return Err(RetryFault::NoSuchTxn);
        };
        Ok(sends)
    }

    /// Asks for the abort of another client's general transaction, with the keys of its plan; asks once more
    /// where it did before, and for nothing where the outcome was told.
    ///
    /// # Errors
    ///
    /// After [`NoMemory`] the client is spent.
    pub fn abort(&mut self, id: TxnId, keys: Row<Key>) -> Result<Row<Outgoing>, NoMemory>
        requires unspent { self.old.spent ≡ false }
        requires another { (self.old.me.client.0 == id.client.0) ≡ false }
        requires id { f.id.fits id ≡ true }
        requires keys { f.keys.fits keys ≡ true }
        ensures ok { IfOk result (λ sends. record { state = self.new.state; sends = sends; event = None }
            ≡ abort self.old.me self.old.state id keys) }
        ensures fits { IfOk result (λ sends. SendsFit sends) }
        ensures stays { OnOk result (self.new ≡ record self.old { state = self.new.state }) }
        ensures err { OnErr result (self.new.spent ≡ true) }
    {
        self.spent = true;
        let sends = self.state.abort(id, keys)?;
        self.spent = false;
        Ok(sends)
    }

    /// Takes a message, and answers what is sent and what happened: the rules' step of the client. None means
    /// that this message completed no half. A message that is out of place, and one for which the rules have
    /// nothing, changes nothing and sends nothing.
    ///
    /// # Errors
    ///
    /// After [`NoMemory`] the client is spent.
    pub fn step(
        &mut self,
        message: Message,
    ) -> Result<(Row<Outgoing>, Option<HistoryEvent>), NoMemory>
        requires { self.old.spent ≡ false }
        ensures ok { IfOk result (λ out. record { state = self.new.state; sends = out.0; event = out.1 }
            ≡ client_step self.old.me self.old.state message) }
        ensures fits { IfOk result (λ out. SendsFit out.0) }
        ensures stays { OnOk result (self.new ≡ record self.old { state = self.new.state }) }
        ensures err { OnErr result (self.new.spent ≡ true) }
    {
        self.spent = true;
        let out = self.state.step(message)?;
        self.spent = false;
        Ok(out)
    }

    /// Takes the message that the bytes spell, as [`step`](Client::step) does. Bytes that spell none change
    /// nothing, send nothing and let nothing happen.
    ///
    /// # Errors
    ///
    /// After [`NoMemory`] the client is spent.
    pub fn receive(
        &mut self,
        bytes: &[u8],
    ) -> Result<(Row<Outgoing>, Option<HistoryEvent>), NoMemory>
        requires { self.old.spent ≡ false }
        ensures message { (message : Message) → IsSpelling message bytes.now → IfOk result (λ out.
            record { state = self.new.state; sends = out.0; event = out.1 } ≡ client_step self.old.me self.old.state message) }
        ensures noise { ((message : Message) → IsSpelling message bytes.now → ⊥) → IfOk result (λ out.
            (out.0 ≡ []) × (out.1 ≡ None) × (self.new.state ≡ self.old.state)) }
        ensures fits { IfOk result (λ out. SendsFit out.0) }
        ensures stays { OnOk result (self.new ≡ record self.old { state = self.new.state }) }
        ensures err { OnErr result (self.new.spent ≡ true) }
    {
        match decode(self.alloc, bytes) {
            Ok(message) => self.step(message),
            Err(DecodeFault::Bad { .. }) => Ok((Row::new(self.alloc), None)),
            Err(DecodeFault::NoMemory) => {
                self.spent = true;
                Err(NoMemory)
            }
        }
    }

    /// Whether an allocation was refused in a call that changes it. None of them may be made then. It takes no
    /// memory.
    pub fn is_spent(&self) -> bool
        ensures { result ≡ self.now.spent }
    {
        self.spent
    }

    /// How many transactions it submitted. They are numbered from 1. It takes no memory.
    pub fn submitted(&self) -> u32
        ensures { result ≡ self.now.state.submitted }
    {
        self.state.submitted()
    }

    /// Whether it has a transaction of its own of this number. It takes no memory.
    pub fn has_submitted(&self, number: u32) -> bool
        ensures { result ≡ is_some (transaction_at self.now.state (own_id self.now.me number)) }
    {
        self.state.transaction(self.state.own_id(number)).is_some()
    }

    /// The plan of its transaction of this number. None where it has none of this number, or that isn't a
    /// general one. It takes no memory.
    pub fn plan(&self, number: u32) -> Option<&Plan>
        requires { self.now.spent ≡ false }
        ensures exact { option_copied result ≡ plan_of_transaction (transaction_at self.now.state (own_id self.now.me number)) }
        ensures fits { IfSome result (λ plan. PlanFits plan.now) }
        ensures id { OnSome result (f.id.fits (own_id self.now.me number) ≡ true) }
    {
        self.state.plan(number)
    }
}
