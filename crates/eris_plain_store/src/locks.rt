ghost use Rattle.std.specs.Prelude.{◌≡◌, Bool, false, is_err, IfOk};
ghost use Rattle.eris_base.specs.declared.ids.ShardId.{ShardId};
ghost use Rattle.eris_locks.specs.LockTable.{step};
ghost use Rattle.eris_locks.specs.Shards.{cut};
ghost use Rattle.eris_locks.specs.States.{StoreState};
ghost use Rattle.eris_plain_store.specs.Stores.{left_with};

use eris_base::{NoMemory, Row};
use eris_locks::Done;
use eris_txn::{Key, Packet};

/// A store of one shard, whose steps are those of the lock table (docs/LOCKS.md, "A step"), however it
/// keeps its state. Its meanings are the state of the table that it stands for, its shard, which no call
/// changes, and whether it is spent.
pub trait Locks {
    ghost state: { Self → StoreState };

    ghost shard: { Self → ShardId };

    ghost spent: { Self → Bool };

    /// Takes one packet, of which it sees what is on keys of its shard, and gives answers: the step of the
    /// lock table. It needs a store that isn't spent. The packets of a shard come in the order of their
    /// places there; the table says what a step does with any.
    ///
    /// # Errors
    ///
    /// [`NoMemory`] where an allocation was refused; the store is then spent.
    fn step(&mut self, packet: &Packet) -> Result<Row<Done>, NoMemory>
        requires { spent self.old ≡ false }
        ensures exact { IfOk result (λ dones. left_with (state self.new) dones ≡ step (state self.old) (cut (shard self.old) packet.now)) }
        ensures shard { shard self.new ≡ shard self.old }
        ensures spent { spent self.new ≡ is_err result };

    /// The value of a key, None exactly where it has none. It needs a store that isn't spent. It takes no
    /// memory.
    fn value_of(&self, key: &Key) -> Option<u64>
        requires { spent self.now ≡ false }
        ensures { result ≡ (state self.now).values key.now };
}
