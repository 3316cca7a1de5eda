ghost use Rattle.std.specs.Prelude.{◌≡◌, IfOk, IsTrue};
ghost use Rattle.eris_txn.specs.Sizes.{txn_has_size};

use anyhow::{Context, bail};
use eris_base::{Config, Row, ShardId};
use eris_txn::{How, Key, Name, Op, Plan, Setting, Txn};
use std::alloc::Global;

/// One shard of one replica, and two clients.
pub(crate) fn config() -> anyhow::Result<Config>
    ensures { IfOk result (λ made. made ≡ record { shards = 1; f = 0; clients = 2 }) }
{
    Ok(Config::new(1, 0, 2)?)
}

/// The transaction of this name.
pub(crate) fn txn(alloc: Global, name: &str) -> anyhow::Result<Txn>
    ensures { IfOk result (λ made. IsTrue (txn_has_size made)) }
{
    match name {
        "read" => read(alloc),
        "general" => general(alloc),
        _ => bail!("no such transaction: {name}"),
    }
}

/// A read of the key.
fn read(alloc: Global) -> anyhow::Result<Txn>
    ensures { IfOk result (λ made. IsTrue (txn_has_size made)) }
{
    let mut ops = Row::new(alloc);
    ops.push(Op::Get(key()?))?;
    Ok(Txn::Whole(ops))
}

/// A general transaction that sets the key to 9.
fn general(alloc: Global) -> anyhow::Result<Txn>
    ensures { IfOk result (λ made. IsTrue (txn_has_size made)) }
{
    let mut keys = Row::new(alloc);
    keys.push(key()?)?;
    let mut settings = Row::new(alloc);
    settings.push(Setting {
        key: key()?,
        how: How::Put(9),
    })?;
    let plan = Plan::new(alloc, keys, Row::new(alloc), settings)?;
    Ok(Txn::General(plan))
}

fn key() -> anyhow::Result<Key> {
    Ok(Key {
        shard: ShardId(0),
        name: Name::new(b"a").context("a name")?,
    })
}
