ghost use Rattle.std.specs.Prelude.{◌≡◌, ◌+◌, ◌-◌, ◌^◌, ◌≤◌, [], length, take, drop, map, not, reverse, is_ok, IfOk, OnOk, OnErr};
ghost use Rattle.eris_disk.specs.Disks.{overwritten, OrTorn, AreSame, IsOnly, GoesOn, StandsStill};
ghost use Rattle.eris_disk.specs.DiskLaws.{content_left, left_since_now, only_since_now, more_since};
ghost use Rattle.eris_disk.specs.DiskValues.{content_of, after_act, clock_of, may_leave, may_have_left};
ghost use Rattle.eris_disk.specs.Histories.{DiskAct, told, image_after};
ghost use Rattle.eris_stream.specs.Faults.{HasCause};
ghost use Rattle.eris_stream.specs.MemoryStreams.{next_fails, after_next};

use crate::book::Book;
use crate::calls::Calls;
use crate::disk::Disk;
use crate::disk_call::DiskCall;
use eris_base::{NoMemory, Row};
use eris_stream::Failed;
use std::alloc::Global;
use std::marker::Model;

/// A disk in memory that fails at chosen calls. It keeps all that was done to it, and takes its memory in
/// `reserve`.
#[derive(Debug, Drop)]
pub struct MemDisk {
    book: Book,
    calls: Calls,
}

impl Model for MemDisk {
    ghost use Rattle.eris_disk.specs.DiskValues.{MemDiskValue};

    ghost Value = { MemDiskValue };

    ghost view = { λ d. record { disk = d.book; calls = d.calls } };
}

impl MemDisk {
    /// A disk with this content, all of it synced. The calls of `read_at`, `write_at` and `sync` whose
    /// numbers, from 1, stand in `failing` fail. It takes no memory.
    pub fn new(alloc: Global, content: Row<u8>, failing: Row<u32>) -> MemDisk
        ensures exact { result ≡ record {
          disk = record { first = content; acts = []; room = 0; spare = 0 };
          calls = record { failing = failing; made = 0; faults = 0 };
        } }
        ensures content { ⟦<MemDisk as Disk>⟧.content result ≡ content }
        ensures synced { IsOnly content (⟦<MemDisk as Disk>⟧.may_leave result) }
        ensures faults { ⟦<MemDisk as Disk>⟧.faults result ≡ 0 }
    {
        MemDisk {
            book: Book::new(alloc, content),
            calls: Calls::new(failing),
        }
    }

    /// The content of the last sync that was Ok, or where there was none the content that the disk was made
    /// with, with the range of each later write and each added part filled with one byte. It is one of the lists
    /// that a crash now may leave.
    ///
    /// # Errors
    ///
    /// [`NoMemory`] where an allocation was refused.
    pub fn image(&self, fill: u8) -> Result<Row<u8>, NoMemory>
        ensures exact { IfOk result (λ image. image ≡ image_after fill self.now.disk.first self.now.disk.acts) }
        ensures left { IfOk result (λ image. ⟦<MemDisk as Disk>⟧.may_leave self.now image) }
    {
        self.book.image(fill)
    }

    /// All writes and syncs, in order. It takes no memory.
    pub fn calls(&self) -> &[DiskCall]
        ensures { result.now ≡ reverse (map told self.now.disk.acts) }
    {
        self.book.calls()
    }
}

impl Disk for MemDisk {
    ghost content = { λ d. content_of d.disk };

    ghost room = { λ d. d.disk.room };

    ghost calls = { λ d. d.disk.spare };

    ghost clock = { λ d. clock_of d.disk };

    ghost faults = { λ d. d.calls.faults };

    ghost may_leave = { λ d. may_leave d.disk };

    ghost may_have_left = { λ d. may_have_left d.disk };

    ghost is_honest = { λ d. content_left d.disk.first d.disk.acts };

    ghost left_now = { λ d bytes left. left_since_now d.disk.first d.disk.acts bytes left };

    ghost only_now = { λ d bytes left. only_since_now d.disk.first d.disk.acts bytes left };

    ghost earlier = { λ d early late bytes le left. more_since d.disk.first d.disk.acts early late bytes le left };

    fn len(&self) -> u64 {
        self.book.bytes().len() as u64
    }

    fn read_at(&mut self, at: u64, buf: &mut [u8]) -> Result<(), Failed>
        requires { at + length buf.old ≤ length (content_of self.old.disk) }
        ensures bytes { OnOk result (buf.new ≡ take (length buf.old) (drop at (content_of self.old.disk))) }
        ensures cause { HasCause self.old.calls.faults self.new.calls.faults result }

        // The call fails exactly where its number is listed.
        ensures failing { is_ok result ≡ not (next_fails self.old.calls) }
        ensures exact { self.new ≡ record self.old { calls = after_next self.old.calls } }
    {
        if self.calls.fails() {
            return Err(Failed);
        }
        copy_from(self.book.bytes(), at as usize, buf);
        Ok(())
    }

    fn write_at(&mut self, at: u64, bytes: &[u8]) -> Result<(), Failed>
        requires within { at ≤ length (content_of self.old.disk) }
        requires room { at + length bytes.now ≤ self.old.disk.room }
        requires calls { 1 ≤ self.old.disk.spare }
        ensures written { OnOk result (content_of self.new.disk ≡ overwritten (content_of self.old.disk) at bytes.now) }
        ensures cause { HasCause self.old.calls.faults self.new.calls.faults result }

        // The call fails exactly where its number is listed; the content is then as before.
        ensures failing { is_ok result ≡ not (next_fails self.old.calls) }
        ensures unwritten { OnErr result (content_of self.new.disk ≡ content_of self.old.disk) }
        ensures exact { self.new
            ≡ record { disk = after_act self.old.disk (DiskAct.Wrote at bytes.now (is_ok result)); calls = after_next self.old.calls } }
    {
        let fails = self.calls.fails();
        self.book.write(at, bytes, !fails);
        if fails {
            return Err(Failed);
        }
        Ok(())
    }

    fn sync(&mut self) -> Result<(), Failed>
        requires { 1 ≤ self.old.disk.spare }
        ensures cause { HasCause self.old.calls.faults self.new.calls.faults result }

        // The call fails exactly where its number is listed.
        ensures failing { is_ok result ≡ not (next_fails self.old.calls) }
        ensures exact { self.new
            ≡ record { disk = after_act self.old.disk (DiskAct.Synced (is_ok result)); calls = after_next self.old.calls } }
    {
        let fails = self.calls.fails();
        self.book.sync(!fails);
        if fails {
            return Err(Failed);
        }
        Ok(())
    }

    fn reserve(&mut self, bytes: u64) -> Result<(), NoMemory> {
        self.book.reserve(bytes)
    }
}

// Fills the buffer with the bytes from `at` on.
pub(crate) fn copy_from(bytes: &[u8], at: usize, buf: &mut [u8])
    requires { at + length buf.old ≤ length bytes.now }
    ensures { buf.new ≡ take (length buf.old) (drop at bytes.now) }
{
    buf.copy_from_slice(&bytes[at..at + buf.len()]);
}
