ghost use Rattle.std.specs.Prelude.{◌≡◌, false};

use crate::making::config;
use crate::steps::act;
use anyhow::{Context, bail};
use eris_base::{ClientId, Row, TxnId};
use eris_client::Client;
use std::alloc::Global;

/// The clients 0 and 1. One that is spent takes no step any more.
#[derive(Drop)]
pub(crate) struct Clients {
    alloc: Global,
    first: Client,
    second: Client,
    ghost first_is_0: { first.spent ≡ false → first.me.client.0 ≡ 0 },
    ghost second_is_1: { second.spent ≡ false → second.me.client.0 ≡ 1 },
}

impl Clients {
    pub(crate) fn new(alloc: Global) -> anyhow::Result<Clients> {
        let config = config()?;
        Ok(Clients {
            alloc,
            first: Client::new(alloc, config, ClientId(0)),
            second: Client::new(alloc, config, ClientId(1)),
        })
    }

    /// What comes of the line.
    pub(crate) fn tell(&mut self, line: &str) -> anyhow::Result<String> {
        match line.split_once(' ') {
            None if line == "new" => self.clear(),
            Some(("0", said)) => act(self.alloc, &mut self.first, said),
            Some(("1", "abort")) => abort(self.alloc, &self.first, &mut self.second),
            Some(("1", said)) => act(self.alloc, &mut self.second, said),
            _ => Ok(format!(in self.alloc; "{line}")?),
        }
    }

    fn clear(&mut self) -> anyhow::Result<String> {
        *self = Clients::new(self.alloc)?;
        Ok(format!(in self.alloc; "new")?)
    }
}

/// Asks for the abort of the owner's first transaction.
fn abort(alloc: Global, owner: &Client, client: &mut Client) -> anyhow::Result<String>
    requires owner { owner.now.spent ≡ false → owner.now.me.client.0 ≡ 0 }
    requires asker { client.old.spent ≡ false → client.old.me.client.0 ≡ 1 }
    ensures asker { client.new.spent ≡ false → client.new.me.client.0 ≡ 1 }
{
    if owner.is_spent() || client.is_spent() {
        bail!("the client is spent");
    }
    let plan = owner.plan(1).context("no general transaction")?;
    let mut keys = Row::new(alloc);
    keys.append(plan.keys())?;
    let id = TxnId {
        client: ClientId(0),
        number: 1,
    };
    let sends = client.abort(id, keys)?;
    Ok(format!(in alloc; "{} sent", sends.len())?)
}
