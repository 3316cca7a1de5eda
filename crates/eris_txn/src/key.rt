ghost use Rattle.std.specs.Prelude.{◌≡◌};

use crate::name::Name;
use eris_base::{Dup, NoMemory, Same, ShardId};
use std::alloc::Global;

/// What a value is kept under: a name in a shard. Keys are ordered by shard, then by name.
#[derive(Clone, Copy, Debug, PartialEq, Eq, PartialOrd, Ord)]
pub struct Key {
    pub shard: ShardId,
    pub name: Name,
}

impl Key {
    ghost use Rattle.eris_txn.specs.Keys.{same_key};

    /// Whether the two keys are equal. It takes no memory.
    pub fn is_same(&self, other: &Key) -> bool
        ensures { result ≡ same_key self.now other.now }
    {
        self == other
    }
}

impl Dup for Key {
    fn copy(&self, _: Global) -> Result<Key, NoMemory> {
        Ok(*self)
    }
}

impl Same for Key {
    fn same(&self, other: &Key) -> bool {
        self == other
    }
}
