ghost use Rattle.std.specs.Prelude.{◌≡◌, ◌+◌, ◌≤◌, [], true, length, take, drop, map, reverse, IfOk, IsOk};
ghost use Rattle.eris_disk.specs.Disks.{IsOnly};
ghost use Rattle.eris_disk.specs.DiskLaws.{content_left, left_since_now, only_since_now, more_since};
ghost use Rattle.eris_disk.specs.DiskValues.{content_of, after_act, clock_of, may_leave, may_have_left};
ghost use Rattle.eris_disk.specs.Histories.{DiskAct, told, image_after};

use crate::book::Book;
use crate::disk::Disk;
use crate::disk_call::DiskCall;
use crate::memory::copy_from;
use eris_base::{NoMemory, Row};
use eris_stream::Failed;
use std::alloc::Global;
use std::marker::Model;

/// A disk in memory that never fails. It keeps all that was done to it, and takes its memory in `reserve`.
#[derive(Debug, Drop)]
pub struct SureDisk {
    book: Book,
}

impl Model for SureDisk {
    ghost use Rattle.eris_disk.specs.DiskValues.{DiskValue};

    ghost Value = { DiskValue };

    ghost view = { λ d. d.book };
}

impl SureDisk {
    /// A disk with this content, all of it synced. It takes no memory.
    pub fn new(alloc: Global, content: Row<u8>) -> SureDisk
        ensures exact { result ≡ record { first = content; acts = []; room = 0; spare = 0 } }
        ensures content { ⟦<SureDisk as Disk>⟧.content result ≡ content }
        ensures synced { IsOnly content (⟦<SureDisk as Disk>⟧.may_leave result) }
    {
        SureDisk {
            book: Book::new(alloc, content),
        }
    }

    /// The content of the last sync, or where there was none the content that the disk was made with, with the
    /// range of each later write and each added part filled with one byte. It is one of the lists that a crash
    /// now may leave.
    ///
    /// # Errors
    ///
    /// [`NoMemory`] where an allocation was refused.
    pub fn image(&self, fill: u8) -> Result<Row<u8>, NoMemory>
        ensures exact { IfOk result (λ image. image ≡ image_after fill self.now.first self.now.acts) }
        ensures left { IfOk result (λ image. ⟦<SureDisk as Disk>⟧.may_leave self.now image) }
    {
        self.book.image(fill)
    }

    /// All writes and syncs, in order. It takes no memory.
    pub fn calls(&self) -> &[DiskCall]
        ensures { result.now ≡ reverse (map told self.now.acts) }
    {
        self.book.calls()
    }
}

impl Disk for SureDisk {
    ghost content = { content_of };

    ghost room = { λ d. d.room };

    ghost calls = { λ d. d.spare };

    ghost clock = { clock_of };

    // It never fails.
    ghost faults = { λ _. 0 };

    ghost may_leave = { may_leave };

    ghost may_have_left = { may_have_left };

    ghost is_honest = { λ d. content_left d.first d.acts };

    ghost left_now = { λ d bytes left. left_since_now d.first d.acts bytes left };

    ghost only_now = { λ d bytes left. only_since_now d.first d.acts bytes left };

    ghost earlier = { λ d early late bytes le left. more_since d.first d.acts early late bytes le left };

    fn len(&self) -> u64 {
        self.book.bytes().len() as u64
    }

    fn read_at(&mut self, at: u64, buf: &mut [u8]) -> Result<(), Failed>
        requires { at + length buf.old ≤ length (content_of self.old) }
        ensures bytes { buf.new ≡ take (length buf.old) (drop at (content_of self.old)) }
        ensures always { IsOk result }
        ensures exact { self.new ≡ self.old }
    {
        copy_from(self.book.bytes(), at as usize, buf);
        Ok(())
    }

    fn write_at(&mut self, at: u64, bytes: &[u8]) -> Result<(), Failed>
        requires within { at ≤ length (content_of self.old) }
        requires room { at + length bytes.now ≤ self.old.room }
        requires calls { 1 ≤ self.old.spare }
        ensures always { IsOk result }
        ensures exact { self.new ≡ after_act self.old (DiskAct.Wrote at bytes.now true) }
    {
        self.book.write(at, bytes, true);
        Ok(())
    }

    fn sync(&mut self) -> Result<(), Failed>
        requires { 1 ≤ self.old.spare }
        ensures always { IsOk result }
        ensures exact { self.new ≡ after_act self.old (DiskAct.Synced true) }
    {
        self.book.sync(true);
        Ok(())
    }

    fn reserve(&mut self, bytes: u64) -> Result<(), NoMemory> {
        self.book.reserve(bytes)
    }
}
