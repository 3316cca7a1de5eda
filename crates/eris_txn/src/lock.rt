use crate::key::Key;
use eris_base::{Dup, NoMemory, Same};
use std::alloc::Global;

/// How a transaction locks a key.
#[derive(Clone, Copy, Debug, PartialEq, Eq)]
pub enum Mode {
    /// Beside other readers.
    Shared,
    /// Alone.
    Exclusive,
}

/// A key and how it is locked.
#[derive(Clone, Copy, Debug, PartialEq, Eq)]
pub struct Lock {
    pub key: Key,
    pub mode: Mode,
}

impl Dup for Mode {
    fn copy(&self, _: Global) -> Result<Mode, NoMemory> {
        Ok(*self)
    }
}

impl Same for Mode {
    fn same(&self, other: &Mode) -> bool {
        self == other
    }
}

impl Dup for Lock {
    fn copy(&self, _: Global) -> Result<Lock, NoMemory> {
        Ok(*self)
    }
}

impl Same for Lock {
    fn same(&self, other: &Lock) -> bool {
        self == other
    }
}
