ghost use Rattle.std.specs.Prelude.{◌≡◌, ◌+◌, ◌-◌, ◌*◌, ◌^◌, ◌≤◌, [], ◌∷◌, length, take, drop, map, reverse, vec_capacity, true, false, IfOk, OnOk, OnErr};
ghost use Rattle.eris_disk.specs.DiskValues.{content_of, after_act};
ghost use Rattle.eris_disk.specs.Histories.{DiskAct, told, image_after};

use crate::disk_call::DiskCall;
use crate::edits::put_if;
use crate::replay::image;
use eris_base::{NoMemory, Row};
use std::alloc::Global;
use std::marker::Model;

// The content of a disk in memory, and all that was done to it since it was made, so that what a crash may
// leave is told. It takes memory in `reserve` alone.
#[derive(Debug, Drop)]
pub(crate) struct Book {
    alloc: Global,
    first: Row<u8>,
    content: Vec<u8>,
    written: Vec<u8>,
    calls: Vec<DiskCall>,
    is_begun: bool,
    room: u64,
    spare: u64,
}

impl Model for Book {
    ghost use Rattle.std.specs.Prelude.{[], vec_capacity};
    ghost use Rattle.eris_disk.specs.Histories.{done_by};
    ghost use Rattle.eris_disk.specs.DiskValues.{DiskValue, IsBook};

    ghost Value = { DiskValue };

    ghost view = { λ b. record { first = b.first; acts = done_by b.calls.items b.written.items []; room = b.room; spare = b.spare } };

    ghost invariant = { λ b. IsBook b.first b.content.items b.written.items b.calls.items b.is_begun b.room b.spare (vec_capacity b.content) (vec_capacity b.written) (vec_capacity b.calls) };
}

impl Book {
    // Nothing was done to it yet.
    pub(crate) fn new(alloc: Global, first: Row<u8>) -> Book
        ensures { result ≡ record { first = first; acts = []; room = 0; spare = 0 } }
    {
        Book {
            alloc,
            first,
            content: Vec::new(alloc),
            written: Vec::new(alloc),
            calls: Vec::new(alloc),
            is_begun: false,
            room: 0,
            spare: 0,
        }
    }

    pub(crate) fn bytes(&self) -> &[u8]
        ensures { result.now ≡ content_of self.now }
    {
        if self.is_begun {
            self.content.as_slice()
        } else {
            self.first.as_slice()
        }
    }

    // Makes room for a length, and memory for four calls.
    pub(crate) fn reserve(&mut self, bytes: u64) -> Result<(), NoMemory>
        requires { bytes ≤ 2 ^ 40 }
        ensures room { OnOk result (bytes ≤ self.new.room) }
        ensures spare { OnOk result (4 ≤ self.new.spare) }
        ensures more_room { self.old.room ≤ self.new.room }
        ensures more_spare { self.old.spare ≤ self.new.spare }
        ensures stays { self.new ≡ record self.old { room = self.new.room; spare = self.new.spare } }
    {
        begin(self.first.as_slice(), &mut self.content, &mut self.is_begun)?;
        let room = self.room.max(bytes);
        reserve_all(&mut self.content, &mut self.written, &mut self.calls, room)?;
        self.room = room;
        self.spare = 4;
        Ok(())
    }

    // Notes a write, and does it where it is to be Ok.
    pub(crate) fn write(&mut self, at: u64, bytes: &[u8], is_ok: bool)
        requires within { at ≤ length (content_of self.old) }
        requires room { at + length bytes.now ≤ self.old.room }
        requires spare { 1 ≤ self.old.spare }
        ensures { self.new ≡ after_act self.old (DiskAct.Wrote at bytes.now is_ok) }
    {
        put_if(&mut self.content, at as usize, bytes, is_ok).unwrap();
        self.written.extend_from_slice(bytes).unwrap();
        self.calls.push_reserved(DiskCall::Write {
            at,
            count: bytes.len() as u64,
            is_ok,
        });
        self.spare -= 1;
    }

    // Notes a sync.
    pub(crate) fn sync(&mut self, is_ok: bool)
        requires { 1 ≤ self.old.spare }
        ensures { self.new ≡ after_act self.old (DiskAct.Synced is_ok) }
    {
        self.calls.push_reserved(DiskCall::Sync { is_ok });
        self.spare -= 1;
    }

    // The content of the last sync that was Ok, or the first, with the range of each later write filled.
    pub(crate) fn image(&self, fill: u8) -> Result<Row<u8>, NoMemory>
        ensures { IfOk result (λ image. image ≡ image_after fill self.now.first self.now.acts) }
    {
        image(
            self.alloc,
            self.first.as_slice(),
            self.calls.as_slice(),
            self.written.as_slice(),
            fill,
        )
    }

    // All writes and syncs, in order.
    pub(crate) fn calls(&self) -> &[DiskCall]
        ensures { result.now ≡ reverse (map told self.now.acts) }
    {
        self.calls.as_slice()
    }
}

// Copies the content that the disk was made with, if that wasn't done.
fn begin(first: &[u8], content: &mut Vec<u8>, is_begun: &mut bool) -> Result<(), NoMemory>
    ensures begun { OnOk result (is_begun.new ≡ true) }
    ensures unbegun { OnErr result (is_begun.new ≡ false) }
    ensures was { is_begun.old ≡ true → content.new.items ≡ content.old.items }
    ensures copied { is_begun.old ≡ false → OnOk result (content.new.items ≡ first.now) }
    ensures waited { OnErr result (is_begun.old ≡ false) }
    ensures capacity { vec_capacity content.old ≤ vec_capacity content.new }
{
    if *is_begun {
        return Ok(());
    }
    content.clear();
    content.extend_from_slice(first)?;
    *is_begun = true;
    Ok(())
}

fn reserve_all(
    content: &mut Vec<u8>,
    written: &mut Vec<u8>,
    calls: &mut Vec<DiskCall>,
    room: u64,
) -> Result<(), NoMemory>
    requires { room ≤ 2 ^ 40 }
    ensures room { OnOk result (room ≤ vec_capacity content.new) }
    ensures log { OnOk result (length written.new.items + 4 * room ≤ vec_capacity written.new) }
    ensures calls { OnOk result (length calls.new.items + 4 ≤ vec_capacity calls.new) }
    ensures more_room { vec_capacity content.old ≤ vec_capacity content.new }
    ensures more_log { vec_capacity written.old ≤ vec_capacity written.new }
    ensures more_calls { vec_capacity calls.old ≤ vec_capacity calls.new }
    ensures same_content { content.new.items ≡ content.old.items }
    ensures same_log { written.new.items ≡ written.old.items }
    ensures same_calls { calls.new.items ≡ calls.old.items }
{
    let size = room as usize;
    content.reserve(size.saturating_sub(content.len()))?;
    written.reserve(4 * size)?;
    calls.reserve(4)?;
    Ok(())
}
