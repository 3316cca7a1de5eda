ghost use Rattle.std.specs.Prelude.{◌≡◌, Some, None, IfOk, IfErr, IsTrue, OnOk, OnErr, map};
ghost use Rattle.eris_base.specs.declared.ids.ShardId.{ShardId};
ghost use Rattle.eris_txn.specs.Bodies.{with_shard, shards_of, participants_of, ascends_from, has_shard, any_on, keys_of};
ghost use Rattle.eris_txn.specs.Sizes.{is_few, body_has_size};

use crate::key::Key;
use crate::lock::Lock;
use crate::of_key::OfKey;
use crate::op::Op;
use crate::plan::Write;
use eris_base::{Dup, NoMemory, Row, Same, ShardId};
use std::alloc::Global;
use thiserror::Error;

/// What a packet asks of the shards that its stamp names.
#[derive(Debug, Drop)]
pub enum Body {
    /// Operations of an independent transaction.
    Independent(Row<Op>),
    /// The first half of a general transaction, which locks and reads.
    Prelim(Row<Lock>),
    /// The second half that writes: the locked keys, and the writes.
    Commit(Row<Key>, Row<Write>),
    /// The second half that writes nothing: the locked keys.
    Abort(Row<Key>),
}

/// Why operations are no independent transaction.
#[derive(Clone, Copy, Debug, PartialEq, Eq, Error)]
pub enum BodyFault {
    #[error("there is no operation")]
    Empty,
    #[error("there are more than 32 operations")]
    TooMany,
}

impl Body {
    ghost use Rattle.eris_txn.specs.BodyFaults.{ops_fault};

    /// The body of these operations. It takes no memory.
    ///
    /// # Errors
    ///
    /// `Empty` exactly where there is none, and `TooMany` exactly where there are more than 32.
    pub fn independent(ops: Row<Op>) -> Result<Body, BodyFault>
        ensures ok { IfOk result (λ body. (body ≡ Body.Independent ops) × IsTrue (body_has_size body)) }
        ensures err { IfErr result (λ fault. ops_fault ops ≡ Some fault) }
    {
        if ops.is_empty() {
            return Err(BodyFault::Empty);
        }
        if ops.len() > 32 {
            return Err(BodyFault::TooMany);
        }
        Ok(Body::Independent(ops))
    }
}

impl Dup for Body {
    fn copy(&self, alloc: Global) -> Result<Body, NoMemory> {
        match self {
            Body::Independent(ops) => Ok(Body::Independent(ops.copy(alloc)?)),
            Body::Prelim(locks) => Ok(Body::Prelim(locks.copy(alloc)?)),
            Body::Commit(keys, writes) => Ok(Body::Commit(keys.copy(alloc)?, writes.copy(alloc)?)),
            Body::Abort(keys) => Ok(Body::Abort(keys.copy(alloc)?)),
        }
    }
}

impl Same for Body {
    fn same(&self, other: &Body) -> bool {
        match (self, other) {
            (Body::Independent(some), Body::Independent(others)) => some.same(others),
            (Body::Prelim(some), Body::Prelim(others)) => some.same(others),
            (Body::Commit(keys, writes), Body::Commit(others, rest)) => keys.same(others)
                && writes.same(rest),
            (Body::Abort(some), Body::Abort(others)) => some.same(others),
            _ => false,
        }
    }
}

/// The shards of the body's operations, locks or keys, ascending, each once.
#[tactic(auto, using(crate::proofs::BodyLaws::participant_laws))]
pub fn participants(alloc: Global, body: &Body) -> Result<Row<ShardId>, NoMemory>
    ensures exact { IfOk result (λ shards. shards ≡ participants_of body.now) }
    ensures ascend { IfOk result (λ shards. IsTrue (ascends_from None shards)) }
    ensures named { IfOk result (λ shards. (shard : ShardId)
        → has_shard shards shard ≡ any_on (keys_of body.now) shard) }
    ensures few { IfOk result (λ shards. IsTrue (body_has_size body.now) → IsTrue (is_few shards)) }
{
    let shards = shards_of_body(alloc, body)?;
    Ok(shards)
}

fn shards_of_body(alloc: Global, body: &Body) -> Result<Row<ShardId>, NoMemory>
    ensures { IfOk result (λ shards. shards ≡ participants_of body.now) }
{
    match body {
        Body::Independent(ops) => shards_of(alloc, ops.as_slice()),
        Body::Prelim(locks) => shards_of(alloc, locks.as_slice()),
        Body::Commit(keys, _) => shards_of(alloc, keys.as_slice()),
        Body::Abort(keys) => shards_of(alloc, keys.as_slice()),
    }
}

fn shards_of<T: OfKey>(alloc: Global, items: &[T]) -> Result<Row<ShardId>, NoMemory>
    ensures { IfOk result (λ shards. shards ≡ shards_of (map T.key_in items.now)) }
{
    let mut shards = Row::new(alloc);
    for item in items {
        include(&mut shards, item.shard())?;
    }
    Ok(shards)
}

/// Puts the shard into its place among ascending ones, where it isn't there yet.
fn include(shards: &mut Row<ShardId>, shard: ShardId) -> Result<(), NoMemory>
    ensures ok { OnOk result (shards.new ≡ with_shard shards.old shard) }
    ensures err { OnErr result (shards.new ≡ shards.old) }
{
    for (at, other) in shards.as_slice().iter().enumerate() {
        if shard.0 < other.0 {
            return shards.insert(at, shard);
        }
        if shard.0 == other.0 {
            return Ok(());
        }
    }
    shards.push(shard)
}
