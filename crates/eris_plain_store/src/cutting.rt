ghost use Rattle.std.specs.Prelude.{◌≡◌, IfOk};
ghost use Rattle.std.specs.List.{filter};
ghost use Rattle.eris_txn.specs.declared.key.Key.{Key};
ghost use Rattle.eris_txn.specs.Operations.{key_of};
ghost use Rattle.eris_locks.specs.Shards.{cut, cut_body, is_on};

use eris_base::{NoMemory, Row, ShardId};
use eris_locks::{ShardPacket, place_on};
use eris_txn::{Body, Key, Lock, Op, Packet, Write};
use std::alloc::Global;

/// What a packet is to a shard: its place there, and of its body what is on keys of that shard.
///
/// # Errors
///
/// [`NoMemory`] where an allocation was refused.
pub fn cut(alloc: Global, shard: ShardId, packet: &Packet) -> Result<ShardPacket, NoMemory>
    ensures { IfOk result (λ made. made ≡ cut shard packet.now) }
{
    Ok(ShardPacket {
        id: packet.id,
        asker: packet.asker,
        at: place_on(shard, &packet.stamp),
        body: cut_body(alloc, shard, &packet.body)?,
    })
}

fn cut_body(alloc: Global, shard: ShardId, body: &Body) -> Result<Body, NoMemory>
    ensures { IfOk result (λ made. made ≡ cut_body shard body.now) }
{
    match body {
        Body::Independent(ops) => Ok(Body::Independent(kept(alloc, shard, ops.as_slice())?)),
        Body::Prelim(locks) => Ok(Body::Prelim(kept(alloc, shard, locks.as_slice())?)),
        Body::Commit(keys, writes) => {
            let on = kept(alloc, shard, keys.as_slice())?;
            Ok(Body::Commit(on, kept(alloc, shard, writes.as_slice())?))
        }
        Body::Abort(keys) => Ok(Body::Abort(kept(alloc, shard, keys.as_slice())?)),
    }
}

/// What is on one key, and is copied by a move of its bits.
trait OnKey: Copy + Drop {
    ghost key_in: { Self → Key };

    fn is_on(&self, shard: ShardId) -> bool
        ensures { result ≡ is_on shard (key_in self.now) };
}

impl OnKey for Key {
    ghost key_in = { λ key. key };

    fn is_on(&self, shard: ShardId) -> bool {
        self.shard.0 == shard.0
    }
}

impl OnKey for Op {
    ghost key_in = { key_of };

    fn is_on(&self, shard: ShardId) -> bool {
        self.key().is_on(shard)
    }
}

impl OnKey for Lock {
    ghost key_in = { λ lock. lock.key };

    fn is_on(&self, shard: ShardId) -> bool {
        self.key.is_on(shard)
    }
}

impl OnKey for Write {
    ghost key_in = { λ write. write.key };

    fn is_on(&self, shard: ShardId) -> bool {
        self.key.is_on(shard)
    }
}

/// Those of the items that are on a key of the shard, in order.
fn kept<T: OnKey>(alloc: Global, shard: ShardId, items: &[T]) -> Result<Row<T>, NoMemory>
    ensures { IfOk result (λ made. made ≡ filter (λ item. is_on shard (T.key_in item)) items.now) }
{
    let mut made = Row::new(alloc);
    for item in items {
        if item.is_on(shard) {
            made.push(*item)?;
        }
    }
    Ok(made)
}
