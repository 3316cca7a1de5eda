ghost use Rattle.std.specs.Prelude.{◌≡◌, ◌≤◌, [], Some, length, min, drop, IsOkAnd, IsOk};

use crate::pieces::{after, give};
use crate::stream::{Failed, Sink, Source};
use eris_base::{NoMemory, Row};
use std::alloc::Global;
use std::marker::Model;

/// A source over bytes in memory that never fails; contracts see it as the bytes that are left.
#[derive(Debug, Drop)]
pub struct SureSource {
    bytes: Row<u8>,
    at: usize,
}

impl Model for SureSource {
    ghost use Rattle.std.specs.Prelude.{◌≤◌, ℕ, List, length, drop};

    ghost Value = { List ℕ };

    ghost view = { λ s. drop s.at s.bytes };

    ghost invariant = { λ s. s.at ≤ length s.bytes };
}

impl SureSource {
    /// A source of the bytes. It takes no memory.
    pub fn new(bytes: Row<u8>) -> SureSource
        ensures exact { result ≡ bytes }
        ensures left { ⟦<SureSource as Source>⟧.left result ≡ Some bytes }
        ensures faults { ⟦<SureSource as Source>⟧.faults result ≡ 0 }
    {
        SureSource { bytes, at: 0 }
    }

    /// The bytes still to come.
    pub fn left(&self) -> &[u8]
        ensures { result.now ≡ self.now }
    {
        after(self.bytes.as_slice(), self.at)
    }
}

impl Source for SureSource {
    ghost left = { λ s. Some s };

    // It never fails.
    ghost faults = { λ _. 0 };

    fn read(&mut self, buf: &mut [u8]) -> Result<usize, Failed> {
        let count = give(after(self.bytes.as_slice(), self.at), buf, usize::MAX);
        self.at += count;
        Ok(count)
    }
}

/// A sink into memory that never fails.
#[derive(Debug, Drop)]
pub struct SureSink {
    bytes: Vec<u8>,
}

impl Model for SureSink {
    ghost use Rattle.std.specs.Prelude.{◌-◌, vec_len, vec_capacity};
    ghost use Rattle.eris_stream.specs.MemoryStreams.{SureSinkValue};

    ghost Value = { SureSinkValue };

    ghost view = { λ s. record { taken = s.bytes.items; spare = vec_capacity s.bytes - vec_len s.bytes } };
}

impl SureSink {
    /// A sink that has taken nothing. It takes no memory.
    pub fn new(alloc: Global) -> SureSink
        ensures taken { ⟦<SureSink as Sink>⟧.taken result ≡ Some [] }
        ensures faults { ⟦<SureSink as Sink>⟧.faults result ≡ 0 }
    {
        SureSink {
            bytes: Vec::new(alloc),
        }
    }

    /// The bytes taken so far.
    pub fn taken(&self) -> &[u8]
        ensures { result.now ≡ self.now.taken }
    {
        self.bytes.as_slice()
    }
}

impl Sink for SureSink {
    ghost taken = { λ s. Some s.taken };

    // It never fails.
    ghost faults = { λ _. 0 };

    ghost spare = { λ s. s.spare };

    fn reserve(&mut self, more: usize) -> Result<(), NoMemory> {
        self.bytes.reserve(more)?;
        Ok(())
    }

    fn write(&mut self, bytes: &[u8]) -> Result<usize, Failed> {
        self.bytes.extend_from_slice(bytes).unwrap();
        Ok(bytes.len())
    }
}
