//! What speaks of one key: operations, locks and keys.
ghost use Rattle.std.specs.Prelude.{◌≡◌};
ghost use Rattle.eris_txn.specs.declared.key.Key.{Key};
ghost use Rattle.eris_txn.specs.Operations.{key_of};

use crate::key::Key;
use crate::lock::Lock;
use crate::op::Op;
use eris_base::ShardId;

/// What speaks of one key.
pub trait OfKey {
    ghost key_in: { Self → Key };

    /// The shard of the key.
    fn shard(&self) -> ShardId
        ensures { result ≡ (key_in self.now).shard };
}

impl OfKey for Key {
    ghost key_in = { λ key. key };

    fn shard(&self) -> ShardId {
        self.shard
    }
}

impl OfKey for Op {
    ghost key_in = { key_of };

    fn shard(&self) -> ShardId {
        self.key().shard
    }
}

impl OfKey for Lock {
    ghost key_in = { λ lock. lock.key };

    fn shard(&self) -> ShardId {
        self.key.shard
    }
}
