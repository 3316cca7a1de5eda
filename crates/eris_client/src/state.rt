ghost use Rattle.std.specs.Prelude.{◌≡◌, ◌+◌, ◌<◌, ◌^◌, IfNone, IfSome, OnOk};
ghost use Rattle.std.specs.Option.{option_copied};
ghost use Rattle.eris_rules.specs.ClientStates.{first_client, next_id, transaction_at, with_transaction};
ghost use Rattle.eris_rules.specs.Clients.{own_id};
ghost use Rattle.eris_rules.specs.Happenings.{plan_of_transaction};
ghost use Rattle.eris_client.specs.Answered.{IsAnswered};

use crate::courses::plan_of;
use eris_base::{ClientId, Config, NoMemory, TxnId};
use eris_rules::Transaction;
use eris_txn::Plan;
use std::alloc::Global;
use std::collections::BTreeMap;
use std::marker::Model;

/// What a client keeps: how many transactions it submitted, and its transactions by id, with answers that
/// their halves can have got. Contracts see it as which client it is and the rules' state.
#[derive(Debug, Drop)]
pub struct State {
    pub alloc: Global,
    pub config: Config,
    pub client: ClientId,
    submitted: u32,
    transactions: BTreeMap<TxnId, Transaction>,
}

impl Model for State {
    ghost use Rattle.eris_client.specs.Answered.{AreKept};
    ghost use Rattle.eris_client.specs.ClientValues.{StateValue};

    ghost Value = { StateValue };

    ghost view = { λ s. record {
      me = record { config = s.config; client = s.client };
      state = record { submitted = s.submitted; transactions = s.transactions.entries };
    } };

    ghost invariant = { λ s. AreKept s.transactions.entries };
}

impl State {
    /// The state of a client that has no transaction. It takes no memory.
    #[tactic(auto, unfolding(eris_rules::specs::ClientStates::first_client))]
    pub fn new(alloc: Global, config: Config, client: ClientId) -> State
        ensures { result ≡ record { me = record { config = config; client = client }; state = first_client } }
    {
        State {
            alloc,
            config,
            client,
            submitted: 0,
            transactions: BTreeMap::new(alloc),
        }
    }

    pub fn submitted(&self) -> u32
        ensures { result ≡ self.now.state.submitted }
    {
        self.submitted
    }

    /// The id of its transaction of this number.
    pub fn own_id(&self, number: u32) -> TxnId
        ensures { result ≡ own_id self.now.me number }
    {
        TxnId {
            client: self.client,
            number,
        }
    }

    /// One more transaction is submitted.
    pub fn count(&mut self)
        requires { self.old.state.submitted + 1 < 2 ^ 32 }
        ensures { self.new ≡ record self.old { state = record self.old.state { submitted = self.old.state.submitted + 1 } } }
    {
        self.submitted += 1;
    }

    /// The transaction of an id, if it has it.
    #[tactic(auto, unfolding(eris_rules::specs::ClientStates::transaction_at))]
    pub fn transaction(&self, id: TxnId) -> Option<&Transaction>
        ensures { option_copied result ≡ transaction_at self.now.state id }
    {
        self.transactions.get(&id)
    }

    /// The plan of its transaction of this number, if it has it and it is a general one.
    pub fn plan(&self, number: u32) -> Option<&Plan>
        ensures { option_copied result ≡ plan_of_transaction (transaction_at self.now.state (own_id self.now.me number)) }
    {
        plan_of(&self.transaction(self.own_id(number))?.course)
    }

    /// Puts a transaction, in the place of the one that it has of this id.
    #[tactic(auto, unfolding(eris_rules::specs::ClientStates::with_transaction))]
    pub fn put(&mut self, id: TxnId, transaction: Transaction) -> Result<(), NoMemory>
        requires { IsAnswered transaction }
        ensures { OnOk result (self.new ≡ record self.old { state = with_transaction self.old.state id transaction }) }
    {
        self.transactions.insert(id, transaction)?;
        Ok(())
    }

    /// Takes the transaction of an id out, if it has it, so that it can be changed and put back.
    #[tactic(auto, unfolding(eris_rules::specs::ClientStates::transaction_at, eris_rules::specs::ClientStates::with_transaction))]
    pub fn take(&mut self, id: TxnId) -> Option<Transaction>
        ensures found { result ≡ transaction_at self.old.state id }
        ensures none { IfNone result (self.new ≡ self.old) }
        ensures some { IfSome result (λ transaction. self.old ≡ record self.new { state = with_transaction self.new.state id transaction }) }
        ensures answered { IfSome result IsAnswered }
    {
        self.transactions.remove(&id)
    }
}
