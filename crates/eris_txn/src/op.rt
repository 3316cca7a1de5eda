ghost use Rattle.std.specs.Prelude.{◌≡◌};

use crate::key::Key;
use eris_base::{Dup, NoMemory, Same};
use std::alloc::Global;

/// An operation on the value of one key.
#[derive(Clone, Copy, Debug, PartialEq, Eq)]
pub enum Op {
    /// Reads the value.
    Get(Key),
    /// Sets the value.
    Put(Key, u64),
    /// Takes the value away.
    Del(Key),
    /// Adds to the value modulo 2^64; an absent value counts as 0.
    Add(Key, u64),
    /// Sets the value to the second number where it equals the first.
    Cas(Key, u64, u64),
}

/// What an operation answers.
#[derive(Clone, Copy, Debug, PartialEq, Eq)]
pub enum OpAnswer {
    /// The value read, or the new sum.
    Value(u64),
    /// There is no value.
    Absent,
    /// The value was set.
    Done,
    /// There was a value to take away, or it equaled the one expected.
    Yes,
    /// There was none, or it didn't.
    No,
}

impl Op {
    ghost use Rattle.eris_txn.specs.Operations.{key_of};

    /// The key whose value the operation reads or changes. It takes no memory.
    pub fn key(&self) -> &Key
        ensures { result.now ≡ key_of self.now }
    {
        match self {
            Op::Get(key) | Op::Put(key, _) | Op::Del(key) | Op::Add(key, _) | Op::Cas(key, _, _) =>
                key,
        }
    }
}

impl Dup for Op {
    fn copy(&self, _: Global) -> Result<Op, NoMemory> {
        Ok(*self)
    }
}

impl Same for Op {
    fn same(&self, other: &Op) -> bool {
        self == other
    }
}

impl Dup for OpAnswer {
    fn copy(&self, _: Global) -> Result<OpAnswer, NoMemory> {
        Ok(*self)
    }
}

impl Same for OpAnswer {
    fn same(&self, other: &OpAnswer) -> bool {
        self == other
    }
}
