ghost use Rattle.std.specs.Prelude.{◌≡◌, true, false, IfOk};
ghost use Rattle.eris_locks.specs.LockTable.{step};
ghost use Rattle.eris_locks.specs.Shards.{cut};
ghost use Rattle.eris_locks.specs.States.{empty};
ghost use Rattle.eris_plain_store.specs.PlainValues.{plain_state, plain_stepped};

use crate::cutting::cut;
use crate::lists::Lists;
use crate::locks::Locks;
use eris_base::{NoMemory, Phase, Row, ShardId, TxnId};
use eris_locks::Done;
use eris_txn::{Answer, Key, Packet};
use std::alloc::Global;
use std::marker::Model;

/// The store of one shard that looks through lists. Contracts see, by `state_of`, the state of the lock
/// table that it stands for.
#[derive(Drop)]
pub struct PlainStore {
    alloc: Global,
    shard: ShardId,
    lists: Lists,
    spent: bool,
}

impl Model for PlainStore {
    ghost use Rattle.eris_plain_store.specs.Stores.{StoreValue};

    ghost Value = { StoreValue };

    ghost view = { λ store. record { shard = store.shard; kept = store.lists; spent = store.spent } };
}

impl PlainStore {
    ghost use Rattle.eris_plain_store.specs.Stores.{state_of};

    /// The empty store of a shard. It takes no memory.
    pub fn new(alloc: Global, shard: ShardId) -> PlainStore
        ensures state { state_of result ≡ empty }
        ensures shard { result.shard ≡ shard }
        ensures spent { result.spent ≡ false }
    {
        PlainStore {
            alloc,
            shard,
            lists: Lists::new(alloc),
            spent: false,
        }
    }

    /// The answer that is kept for an id and a phase, None exactly where none is. It needs a store that isn't
    /// spent.
    ///
    /// # Errors
    ///
    /// [`NoMemory`] where an allocation was refused.
    pub fn recorded(&self, id: TxnId, phase: Phase) -> Result<Option<Answer>, NoMemory>
        requires { self.now.spent ≡ false }
        ensures { IfOk result (λ found. found ≡ (state_of self.now).recorded id phase) }
    {
        self.lists.recorded(id, phase)
    }

    /// An equal store. It needs one that isn't spent.
    ///
    /// # Errors
    ///
    /// [`NoMemory`] where an allocation was refused.
    pub fn copy(&self) -> Result<PlainStore, NoMemory>
        requires { self.now.spent ≡ false }
        ensures { IfOk result (λ made. made ≡ self.now) }
    {
        Ok(PlainStore {
            alloc: self.alloc,
            shard: self.shard,
            lists: self.lists.copy()?,
            spent: self.spent,
        })
    }

    /// Whether a step was refused memory. Its other calls then may not be made any more.
    pub fn is_spent(&self) -> bool
        ensures { result ≡ self.now.spent }
    {
        self.spent
    }
}

impl Locks for PlainStore {
    ghost use Rattle.eris_plain_store.specs.Stores.{state_of};

    ghost state = { state_of };

    ghost shard = { λ store. store.shard };

    ghost spent = { λ store. store.spent };

    fn step(&mut self, packet: &Packet) -> Result<Row<Done>, NoMemory> {
        let done = step_cut(self.alloc, self.shard, &mut self.lists, packet);
        self.spent = done.is_err();
        done
    }

    fn value_of(&self, key: &Key) -> Option<u64> {
        self.lists.value_of(key)
    }
}

/// Steps the lists with what a packet is to the shard.
fn step_cut(
    alloc: Global,
    shard: ShardId,
    lists: &mut Lists,
    packet: &Packet,
) -> Result<Row<Done>, NoMemory>
    ensures { IfOk result (λ dones. plain_stepped lists.new dones ≡ step (plain_state lists.old) (cut shard packet.now)) }
{
    let own = cut(alloc, shard, packet)?;
    lists.step(own)
}
