ghost use Rattle.std.specs.Prelude.{◌≡◌, [], map, OnOk, OnErr, IfOk, Some, None};
ghost use Rattle.std.specs.List.Sorted.{IsStrictlySortedBy};
ghost use Rattle.eris_txn.specs.Keys.{key_cmp, with_value, no_values};
ghost use Rattle.eris_txn.specs.Operations.{after, after_all, answered, answers, key_of};
ghost use Rattle.eris_txn.specs.KeyValues.{total_of, values_of};
ghost use Rattle.eris_txn.specs.Plans.{set_by, settled};

use crate::key::Key;
use crate::op::{Op, OpAnswer};
use crate::operation::apply_op;
use crate::plan::{Setting, set_by};
use eris_base::{NoMemory, Row};
use std::alloc::Global;
use std::collections::BTreeMap;
use std::marker::Model;

/// The values of keys, of those that have one. Contracts see the keys with their values, and by
/// `values_of` what each key's value is.
#[derive(Drop)]
pub struct KeyValues {
    entries: BTreeMap<Key, u64>,
}

impl Model for KeyValues {
    ghost use Rattle.std.specs.Prelude.{List, ℕ};
    ghost use Rattle.eris_txn.specs.declared.key.Key.{Key};

    ghost Value = { List (Key × ℕ) };

    ghost view = { λ kept. kept.entries.entries };
}

impl KeyValues {
    /// No key has a value. It takes no memory.
    pub fn new(alloc: Global) -> KeyValues
        ensures { result ≡ [] }
    {
        KeyValues {
            entries: BTreeMap::new(alloc),
        }
    }

    /// The value of a key. None exactly where it has none. It takes no memory.
    pub fn value_of(&self, key: &Key) -> Option<u64>
        ensures { result ≡ values_of self.now key.now }
    {
        self.entries.get(key).copied()
    }

    /// Sets the value of a key. After [`NoMemory`] all is as before.
    #[tactic(auto, unfolding(crate::specs::Keys::same_key))]
    pub fn put(&mut self, key: Key, value: u64) -> Result<(), NoMemory>
        ensures ok { OnOk result (values_of self.new ≡ with_value key (Some value) (values_of self.old)) }
        ensures err { OnErr result (self.new ≡ self.old) }
    {
        self.entries.insert(key, value)?;
        Ok(())
    }

    /// Takes away the value of a key. It takes no memory.
    #[tactic(auto, unfolding(crate::specs::Keys::same_key))]
    pub fn remove(&mut self, key: &Key)
        ensures { values_of self.new ≡ with_value key.now None (values_of self.old) }
    {
        self.entries.remove(key);
    }

    /// Applies an operation and gives its answer. After [`NoMemory`] all is as before.
    pub fn apply(&mut self, op: &Op) -> Result<OpAnswer, NoMemory>
        ensures answer { IfOk result (λ answer. answer ≡ answered op.now (values_of self.old (key_of op.now))) }
        ensures ok { OnOk result (values_of self.new ≡ after op.now (values_of self.old)) }
        ensures err { OnErr result (self.new ≡ self.old) }
    {
        let key = op.key();
        let before = self.value_of(key);
        let (left, answer) = apply_op(before, op);
        match left {
            Some(value) => self.put(*key, value)?,
            None => self.remove(key),
        }
        Ok(answer)
    }

    /// Applies operations, one after the other, and gives their answers. After [`NoMemory`] some may have
    /// been applied.
    pub fn apply_all(&mut self, alloc: Global, ops: &[Op]) -> Result<Row<OpAnswer>, NoMemory>
        ensures { IfOk result (λ made. (made ≡ answers ops.now (values_of self.old)) × (values_of self.new ≡ after_all ops.now (values_of self.old))) }
    {
        let mut made = Row::new(alloc);
        for op in ops {
            made.push(self.apply(op)?)?;
        }
        Ok(made)
    }

    /// Makes a setting. After [`NoMemory`] all is as before.
    fn set(&mut self, setting: &Setting) -> Result<(), NoMemory>
        ensures ok { OnOk result (values_of self.new ≡ with_value setting.now.key (Some (set_by setting.now.how (values_of self.old setting.now.key))) (values_of self.old)) }
        ensures err { OnErr result (self.new ≡ self.old) }
    {
        let before = self.value_of(&setting.key);
        self.put(setting.key, set_by(&setting.how, before))
    }

    /// Makes settings, one after the other. After [`NoMemory`] some may have been made.
    pub fn settle(&mut self, settings: &[Setting]) -> Result<(), NoMemory>
        ensures { OnOk result (values_of self.new ≡ settled settings.now (values_of self.old)) }
    {
        for setting in settings {
            self.set(setting)?;
        }
        Ok(())
    }

    /// The sum of all values, modulo 2^64. Each key stands once. It takes no memory.
    pub fn total(&self) -> u64
        ensures sum { result ≡ total_of self.now }
        ensures ordered { IsStrictlySortedBy key_cmp (map (λ entry. entry.0) self.now) }
    {
        let mut sum: u64 = 0;
        for value in self.entries.values() {
            sum = sum.wrapping_add(*value);
        }
        sum
    }
}
