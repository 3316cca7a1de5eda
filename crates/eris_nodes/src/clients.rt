ghost use Rattle.std.specs.Prelude.{◌≡◌, ◌==◌, [], None, false, true, is_some, replicate, IfOk, IfSome, OnErr, OnOk};
ghost use Rattle.std.specs.List.{list_any};
ghost use Rattle.eris_in_place.specs.MessageRanges.{SendsFit};
ghost use Rattle.eris_msg.specs.declared.message.Message.{Message};
ghost use Rattle.eris_codec.specs.Fields as f;
ghost use Rattle.eris_msg.specs.Spellings.{IsSpelling};
ghost use Rattle.eris_rules.specs.ClientStates.{first_client, transaction_at};
ghost use Rattle.eris_rules.specs.Clients.{client_step, own_id};
ghost use Rattle.eris_rules.specs.Happenings.{plan_of_transaction};
ghost use Rattle.eris_nodes.specs.ClientRows.{AreClients, clients_act, keys_in, plan_keys, states_of, transaction_in};
ghost use Rattle.eris_nodes.specs.Acts.{acts};
ghost use Rattle.eris_nodes.specs.Allowed.{CanActAt};

use crate::act::{Act, Told, leave, perform};
use eris_base::{ClientId, Config, NoMemory, Row, TxnId};
use eris_client::Client;
use eris_txn::Key;
use std::alloc::Global;
use std::marker::Model;

/// All clients. Contracts see their states.
#[derive(Debug, Drop)]
pub struct Clients {
    alloc: Global,
    config: Config,
    clients: Vec<Client>,
}

impl Model for Clients {
    ghost use Rattle.std.specs.Prelude.{◌≡◌, false};
    ghost use Rattle.eris_nodes.specs.ClientRows.{ClientsValue, AreClients, any_spent, states_of};

    ghost Value = { ClientsValue };

    ghost view = { λ c. record { config = c.config; states = states_of c.clients.items; spent = any_spent c.clients.items } };

    ghost invariant = { λ c. any_spent c.clients.items ≡ false → AreClients c.config 0 c.clients.items };
}

impl Clients {
    /// All clients, none of which has a transaction.
    pub fn new(alloc: Global, config: Config) -> Result<Clients, NoMemory>
        ensures { IfOk result (λ made. made ≡ record { config = config; states = replicate config.clients first_client; spent = false }) }
    {
        let clients = first_clients(alloc, config)?;
        Ok(Clients {
            alloc,
            config,
            clients,
        })
    }

    /// A client acts of itself; where there is none nothing is done and nothing sent. After [`NoMemory`] they
    /// are spent, or as they were.
    pub fn act(&mut self, client: ClientId, act: Act) -> Result<Told, NoMemory>
        requires unspent { self.old.spent ≡ false }
        requires can { CanActAt self.old.config self.old.states client act }
        ensures ok { IfOk result (λ out. record { states = self.new.states; sends = out.0; event = out.1 }
            ≡ clients_act self.old.config self.old.states client (acts act)) }
        ensures fits { IfOk result (λ out. SendsFit out.0) }
        ensures stays { OnOk result (self.new ≡ record self.old { states = self.new.states }) }
        ensures err { OnErr result (self.new.spent ≡ false → self.new ≡ self.old) }
    {
        let at = client.0 as usize;
        if at >= self.clients.len() {
            leave(act);
            return Ok((Row::new(self.alloc), None));
        }
        let one = &mut self.clients[at];
        perform(self.alloc, one, act)
    }

    /// A client takes the message that the bytes spell. Bytes that spell none change nothing, send nothing and
    /// let nothing happen; nor does any message where there is no such client. After [`NoMemory`] they are
    /// spent.
    pub fn receive(&mut self, client: ClientId, bytes: &[u8]) -> Result<Told, NoMemory>
        requires { self.old.spent ≡ false }
        ensures message { (message : Message) → IsSpelling message bytes.now → IfOk result (λ out.
            record { states = self.new.states; sends = out.0; event = out.1 }
            ≡ clients_act self.old.config self.old.states client (λ me state. client_step me state message)) }
        ensures noise { ((message : Message) → IsSpelling message bytes.now → ⊥) → IfOk result (λ out.
            (out.0 ≡ []) × (out.1 ≡ None) × (self.new.states ≡ self.old.states)) }
        ensures fits { IfOk result (λ out. SendsFit out.0) }
        ensures stays { OnOk result (self.new ≡ record self.old { states = self.new.states }) }
        ensures err { OnErr result (self.new.spent ≡ true) }
    {
        let at = client.0 as usize;
        if at >= self.clients.len() {
            return Ok((Row::new(self.alloc), None));
        }
        let one = &mut self.clients[at];
        one.receive(bytes)
    }

    /// Whether the client of the id submitted such a transaction. It takes no memory.
    pub fn has_submitted(&self, id: TxnId) -> bool
        requires { self.now.spent ≡ false }
        ensures { result ≡ is_some (transaction_in self.now.states id) }
    {
        let at = id.client.0 as usize;
        if at >= self.clients.len() {
            return false;
        }
        let one = &self.clients[at];
        one.has_submitted(id.number)
    }

    /// The keys of the plan of a transaction; None where there is no such transaction, or it isn't general.
    pub fn plan_keys(&self, id: TxnId) -> Result<Option<Row<Key>>, NoMemory>
        requires { self.now.spent ≡ false }
        ensures exact { IfOk result (λ found. found ≡ plan_keys self.now.states id) }
        ensures fits { IfOk result (λ found. IfSome found (λ keys. (f.keys.fits keys ≡ true) × (f.id.fits id ≡ true))) }
    {
        let at = id.client.0 as usize;
        if at >= self.clients.len() {
            return Ok(None);
        }
        let one = &self.clients[at];
        keys_of(self.alloc, one, id.number)
    }
}

/// The keys of the plan of a client's transaction.
fn keys_of(alloc: Global, one: &Client, number: u32) -> Result<Option<Row<Key>>, NoMemory>
    requires { one.now.spent ≡ false }
    ensures exact { IfOk result (λ found. found ≡ keys_in (plan_of_transaction (transaction_at one.now.state (own_id one.now.me number)))) }
    ensures fits { IfOk result (λ found. IfSome found (λ keys. (f.keys.fits keys ≡ true) × (f.id.fits (own_id one.now.me number) ≡ true))) }
{
    match one.plan(number) {
        Some(plan) => {
            let mut keys = Row::new(alloc);
            keys.append(plan.keys())?;
            Ok(Some(keys))
        }
        None => Ok(None),
    }
}

fn first_clients(alloc: Global, config: Config) -> Result<Vec<Client>, NoMemory>
    ensures states { IfOk result (λ clients. states_of clients.items ≡ replicate config.clients first_client) }
    ensures clients { IfOk result (λ clients. AreClients config 0 clients.items) }
{
    let mut clients = Vec::new(alloc);
    for client in 0..config.clients() {
        let one = Client::new(alloc, config, ClientId(client));
        clients.push(one)?;
    }
    Ok(clients)
}
