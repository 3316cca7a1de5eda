ghost use Rattle.std.specs.Prelude.{◌≡◌, ◌+◌, ◌<◌, ◌≤◌, [], Some, length, min, not, is_ok, IfOk, OnOk, MatchResult};
ghost use Rattle.std.specs.Io.{ReadsAtMost};
ghost use Rattle.std.specs.Io.KnownBytes.{ReadConsumes, WriteAppends};
ghost use Rattle.eris_stream.specs.Faults.{HasCause};
ghost use Rattle.eris_stream.specs.MemoryStreams.{next_fails, after_next};

use crate::calls::Calls;
use crate::pieces::{after, give};
use crate::stream::{Failed, Sink, Source};
use eris_base::{NoMemory, Row};
use std::alloc::Global;
use std::marker::Model;

/// A source over bytes in memory, which gives them in small pieces and fails at chosen reads.
#[derive(Debug, Drop)]
pub struct MemSource {
    bytes: Row<u8>,
    at: usize,
    chunk: usize,
    reads: Calls,
}

impl Model for MemSource {
    ghost use Rattle.std.specs.Prelude.{◌<◌, ◌≤◌, length, drop};
    ghost use Rattle.eris_stream.specs.MemoryStreams.{MemSourceValue};

    ghost Value = { MemSourceValue };

    ghost view = { λ s. record { left = drop s.at s.bytes; chunk = s.chunk; reads = s.reads } };

    ghost invariant = { λ s. (s.at ≤ length s.bytes) × (0 < s.chunk) };
}

impl MemSource {
    /// A source of the bytes, which gives at most `chunk` of them at a read. The reads whose numbers,
    /// from 1, stand in `failing` fail. It takes no memory.
    pub fn new(bytes: Row<u8>, chunk: usize, failing: Row<u32>) -> MemSource
        requires { 0 < chunk }
        ensures exact { result
            ≡ record { left = bytes; chunk = chunk; reads = record { failing = failing; made = 0; faults = 0 } } }
        ensures left { ⟦<MemSource as Source>⟧.left result ≡ Some bytes }
        ensures faults { ⟦<MemSource as Source>⟧.faults result ≡ 0 }
    {
        MemSource {
            bytes,
            at: 0,
            chunk,
            reads: Calls::new(failing),
        }
    }

    /// The bytes still to come. It takes no memory.
    pub fn left(&self) -> &[u8]
        ensures { result.now ≡ self.now.left }
    {
        after(self.bytes.as_slice(), self.at)
    }
}

impl Source for MemSource {
    ghost left = { λ s. Some s.left };

    ghost faults = { λ s. s.reads.faults };

    fn read(&mut self, buf: &mut [u8]) -> Result<usize, Failed>
        ensures bound { ReadsAtMost result buf.new }
        ensures bytes { ReadConsumes (Some self.old.left) (Some self.new.left) result buf.new }
        ensures cause { HasCause self.old.reads.faults self.new.reads.faults result }

        // The read fails exactly where its number is listed; else it gives as much as it may.
        ensures failing { is_ok result ≡ not (next_fails self.old.reads) }
        ensures count { IfOk result (λ n. n ≡ min (min (length buf.new) self.old.chunk) (length self.old.left)) }
        ensures counted { self.new ≡ record self.old { left = self.new.left; reads = after_next self.old.reads } }
    {
        if self.reads.fails() {
            return Err(Failed);
        }
        let count = give(after(self.bytes.as_slice(), self.at), buf, self.chunk);
        self.at += count;
        Ok(count)
    }
}

/// A sink in memory, which takes bytes in small pieces and fails at chosen writes. It takes its memory
/// in `reserve`.
#[derive(Debug, Drop)]
pub struct MemSink {
    bytes: Vec<u8>,
    chunk: usize,
    writes: Calls,
}

impl Model for MemSink {
    ghost use Rattle.std.specs.Prelude.{◌-◌, ◌<◌, vec_len, vec_capacity};
    ghost use Rattle.eris_stream.specs.MemoryStreams.{MemSinkValue};

    ghost Value = { MemSinkValue };

    ghost view = { λ s. record { taken = s.bytes.items; spare = vec_capacity s.bytes - vec_len s.bytes; chunk = s.chunk; writes = s.writes } };

    ghost invariant = { λ s. 0 < s.chunk };
}

impl MemSink {
    /// A sink that takes at most `chunk` bytes at a write. The writes whose numbers, from 1, stand in
    /// `failing` fail. It takes no memory.
    pub fn new(alloc: Global, chunk: usize, failing: Row<u32>) -> MemSink
        requires { 0 < chunk }
        ensures exact { result
            ≡ record { taken = []; spare = result.spare; chunk = chunk; writes = record { failing = failing; made = 0; faults = 0 } } }
        ensures taken { ⟦<MemSink as Sink>⟧.taken result ≡ Some [] }
        ensures faults { ⟦<MemSink as Sink>⟧.faults result ≡ 0 }
    {
        MemSink {
            bytes: Vec::new(alloc),
            chunk,
            writes: Calls::new(failing),
        }
    }

    /// The bytes taken so far. It takes no memory.
    pub fn taken(&self) -> &[u8]
        ensures { result.now ≡ self.now.taken }
    {
        self.bytes.as_slice()
    }
}

impl Sink for MemSink {
    ghost taken = { λ s. Some s.taken };

    ghost faults = { λ s. s.writes.faults };

    ghost spare = { λ s. s.spare };

    fn reserve(&mut self, more: usize) -> Result<(), NoMemory>
        ensures room { OnOk result (more ≤ self.new.spare) }
        ensures stays { self.new ≡ record self.old { spare = self.new.spare } }
    {
        self.bytes.reserve(more)?;
        Ok(())
    }

    fn write(&mut self, bytes: &[u8]) -> Result<usize, Failed>
        requires { length bytes.now ≤ self.old.spare }
        ensures bound { IfOk result (λ n. n ≤ length bytes.now) }
        ensures progress { IfOk result (λ n. 0 < length bytes.now → 0 < n) }
        ensures bytes { WriteAppends (Some self.old.taken) (Some self.new.taken) result bytes.now }
        ensures spare { MatchResult result (λ n. self.old.spare ≤ self.new.spare + n) (λ _. self.new.spare ≡ self.old.spare) }
        ensures cause { HasCause self.old.writes.faults self.new.writes.faults result }

        // The write fails exactly where its number is listed; else it takes as much as it may.
        ensures failing { is_ok result ≡ not (next_fails self.old.writes) }
        ensures count { IfOk result (λ n. n ≡ min (length bytes.now) self.old.chunk) }
        ensures counted { self.new
            ≡ record self.old { taken = self.new.taken; spare = self.new.spare; writes = after_next self.old.writes } }
    {
        if self.writes.fails() {
            return Err(Failed);
        }
        let count = bytes.len().min(self.chunk);
        self.bytes.extend_from_slice(&bytes[..count]).unwrap();
        Ok(count)
    }
}
