ghost use Rattle.std.specs.Prelude.{◌≡◌, ◌<◌, true, IfOk, IsTrue};
ghost use Rattle.eris_txn.specs.Sizes.{txn_has_size};

use anyhow::{Context, bail};
use eris_base::{ClientId, Config, ReplicaId, Row, ShardId};
use eris_client::{Client, knows_txn};
use eris_replica::Replica;
use eris_txn::{How, Key, Name, Op, Plan, Setting, Txn};
use std::alloc::Global;

/// Two shards of three replicas each, and two clients.
pub(crate) fn config() -> anyhow::Result<Config>
    ensures { IfOk result (λ made. made ≡ record { shards = 2; f = 1; clients = 2 }) }
{
    Ok(Config::new(2, 1, 2)?)
}

/// A replica of shard 0.
pub(crate) fn replica(alloc: Global, number: u8) -> anyhow::Result<Replica>
    requires { number < 3 }
{
    Ok(Replica::new(alloc, config()?, ShardId(0), ReplicaId(number)))
}

/// The first client, which submitted a read of a key of each shard.
pub(crate) fn client(alloc: Global) -> anyhow::Result<Client> {
    let mut ops = Row::new(alloc);
    ops.push(Op::Get(key(0)?))?;
    ops.push(Op::Get(key(1)?))?;
    submitted(alloc, Txn::Whole(ops))
}

/// The first client, which submitted a general transaction that sets a key of shard 0.
pub(crate) fn general(alloc: Global) -> anyhow::Result<Client> {
    let mut keys = Row::new(alloc);
    keys.push(key(0)?)?;
    let mut settings = Row::new(alloc);
    settings.push(Setting {
        key: key(0)?,
        how: How::Put(9),
    })?;
    let plan = Plan::new(alloc, keys, Row::new(alloc), settings)?;
    submitted(alloc, Txn::General(plan))
}

#[tactic(auto, unfolding(eris_rules::specs::ClientStates::first_client))]
fn submitted(alloc: Global, txn: Txn) -> anyhow::Result<Client>
    requires { IsTrue (txn_has_size txn) }
{
    let config = config()?;
    if !knows_txn(&config, &txn) {
        bail!("a transaction of another system");
    }
    let mut client = Client::new(alloc, config, ClientId(0));
    let _ = client.submit(txn)?;
    Ok(client)
}

fn key(shard: u8) -> anyhow::Result<Key> {
    Ok(Key {
        shard: ShardId(shard),
        name: Name::new(b"a").context("a name")?,
    })
}
