ghost use Rattle.std.specs.Prelude.{◌≡◌, [], map, OnOk, OnErr, IfOk, Some, None};
ghost use Rattle.eris_txn.specs.Keys.{with_value};
ghost use Rattle.eris_txn.specs.KeyValues.{values_of};
ghost use Rattle.eris_txn.specs.Operations.{after, after_all, answered, answers, key_of};
ghost use Rattle.eris_txn.specs.Plans.{written};
ghost use Rattle.eris_plain_store.specs.Listings.{IsListing};

use eris_base::{NoMemory, Row};
use eris_txn::{Key, Lock, Op, OpAnswer, Write, apply_op};
use std::alloc::Global;
use std::collections::BTreeMap;
use std::marker::Model;

/// The values of a shard's keys, of those that have one. Contracts see the keys with their values, and by
/// `values_of` what each key's value is.
#[derive(Drop)]
pub struct Cells {
    alloc: Global,
    entries: BTreeMap<Key, u64>,
}

impl Model for Cells {
    ghost use Rattle.std.specs.Prelude.{List, ℕ};
    ghost use Rattle.eris_txn.specs.declared.key.Key.{Key};

    ghost Value = { List (Key × ℕ) };

    ghost view = { λ cells. cells.entries.entries };
}

impl Cells {
    /// No key has a value. It takes no memory.
    pub fn new(alloc: Global) -> Cells
        ensures { result ≡ [] }
    {
        Cells {
            alloc,
            entries: BTreeMap::new(alloc),
        }
    }

    /// The same values.
    ///
    /// # Errors
    ///
    /// [`NoMemory`] where an allocation was refused.
    pub fn copy(&self) -> Result<Cells, NoMemory>
        ensures { IfOk result (λ made. made ≡ self.now) }
    {
        Ok(Cells {
            alloc: self.alloc,
            entries: self.entries.clone()?,
        })
    }

    /// The value of a key, None exactly where it has none. It takes no memory.
    pub fn value_of(&self, key: &Key) -> Option<u64>
        ensures { result ≡ values_of self.now key.now }
    {
        self.entries.get(key).copied()
    }

    #[tactic(auto, unfolding(eris_txn::specs::Keys::same_key))]
    fn put(&mut self, key: Key, value: u64) -> Result<(), NoMemory>
        ensures { OnOk result (values_of self.new ≡ with_value key (Some value) (values_of self.old)) }
    {
        self.entries.insert(key, value)?;
        Ok(())
    }

    #[tactic(auto, unfolding(eris_txn::specs::Keys::same_key))]
    fn remove(&mut self, key: &Key)
        ensures { values_of self.new ≡ with_value key.now None (values_of self.old) }
    {
        self.entries.remove(key);
    }

    fn apply(&mut self, op: &Op) -> Result<OpAnswer, NoMemory>
        ensures answer { IfOk result (λ answer. answer ≡ answered op.now (values_of self.old (key_of op.now))) }
        ensures ok { OnOk result (values_of self.new ≡ after op.now (values_of self.old)) }
    {
        let key = op.key();
        let before = self.value_of(key);
        let (left, answer) = apply_op(before, op);
        match left {
            Some(value) => self.put(*key, value)?,
            None => self.remove(key),
        }
        Ok(answer)
    }

    /// Applies operations, one after the other, and gives their answers.
    ///
    /// # Errors
    ///
    /// [`NoMemory`] where an allocation was refused; some of them may have been applied.
    pub fn apply_all(&mut self, ops: &[Op]) -> Result<Row<OpAnswer>, NoMemory>
        ensures { IfOk result (λ made. (made ≡ answers ops.now (values_of self.old)) × (values_of self.new ≡ after_all ops.now (values_of self.old))) }
    {
        let mut made = Row::new(self.alloc);
        for op in ops {
            made.push(self.apply(op)?)?;
        }
        Ok(made)
    }

    /// Makes writes, one after the other.
    ///
    /// # Errors
    ///
    /// [`NoMemory`] where an allocation was refused; some of them may have been made.
    pub fn write_all(&mut self, writes: &[Write]) -> Result<(), NoMemory>
        ensures { OnOk result (values_of self.new ≡ written writes.now (values_of self.old)) }
    {
        for write in writes {
            self.put(write.key, write.value)?;
        }
        Ok(())
    }

    /// The values of the locked keys, in order.
    ///
    /// # Errors
    ///
    /// [`NoMemory`] where an allocation was refused.
    pub fn read_all(&self, locks: &[Lock]) -> Result<Row<Option<u64>>, NoMemory>
        ensures { IfOk result (λ read. read ≡ map (λ lock. values_of self.now lock.key) locks.now) }
    {
        let mut read = Row::new(self.alloc);
        for lock in locks {
            read.push(self.value_of(&lock.key))?;
        }
        Ok(read)
    }

    /// The keys that have a value, with it: each key once, in the order of keys.
    ///
    /// # Errors
    ///
    /// [`NoMemory`] where an allocation was refused.
    pub fn entries(&self) -> Result<Row<Write>, NoMemory>
        ensures { IfOk result (λ writes. IsListing (values_of self.now) writes) }
    {
        let mut writes = Row::new(self.alloc);
        for (key, value) in &self.entries {
            writes.push(Write {
                key: *key,
                value: *value,
            })?;
        }
        Ok(writes)
    }
}
