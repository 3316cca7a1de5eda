ghost use Rattle.std.specs.Prelude.{◌≡◌, ◌⊎◌, ◌+◌, ◌-◌, ◌<◌, ◌≤◌, ℕ, [], ◌∷◌, true, false, length, take, drop, slice_index_or, IfOk, OnOk};
ghost use Rattle.eris_disk.specs.Histories.{image_after, done_by, replayed, filled_by, written_by, is_synced, none_synced, after_write, filled, IsShort, AreShort, EndsSynced};

use crate::disk_call::DiskCall;
use crate::edits::{fill, put_if};
use eris_base::{NoMemory, Row};
use std::alloc::Global;

// The content of the last sync that was Ok, or the first, with the range of each later write filled. The
// calls wrote these bytes, one after another.
pub(crate) fn image(
    alloc: Global,
    first: &[u8],
    calls: &[DiskCall],
    written: &[u8],
    byte: u8,
) -> Result<Row<u8>, NoMemory>
    requires logged { written_by calls.now ≡ length written.now }
    requires short { AreShort calls.now }
    ensures { IfOk result (λ image. image ≡ image_after byte first.now (done_by calls.now written.now [])) }
{
    let (settled, rest) = calls.split_at(last_synced(calls));
    let mut content = first.to_vec(alloc)?;
    replay(&mut content, settled, written)?;
    fill_all(&mut content, rest, byte)?;
    Ok(Row::from_vec(content))
}

// How many calls there are up to and with the last sync that was Ok.
fn last_synced(calls: &[DiskCall]) -> usize
    ensures bound { result ≤ length calls.now }
    ensures ends { EndsSynced (take result calls.now) }
    ensures rest { none_synced (drop result calls.now) ≡ true }
{
    let mut count = calls.len();
    while count > 0 && !is_ok_sync(calls[count - 1]) {
        count -= 1;
    }
    count
}

fn is_ok_sync(call: DiskCall) -> bool
    ensures { result ≡ is_synced call }
{
    match call {
        DiskCall::Write { .. } => false,
        DiskCall::Sync { is_ok } => is_ok,
    }
}

// Does the calls again, which wrote these bytes one after another.
fn replay(content: &mut Vec<u8>, calls: &[DiskCall], written: &[u8]) -> Result<(), NoMemory>
    requires logged { written_by calls.now ≤ length written.now }
    requires short { AreShort calls.now }
    ensures { OnOk result (content.new.items ≡ replayed content.old.items calls.now written.now) }
{
    let mut left = calls;
    let mut rest = written;
    while let [call, later @ ..] = left {
        rest = replay_one(content, *call, rest)?;
        left = later;
    }
    Ok(())
}

// Does a call again, which wrote the first of these bytes, and answers the others.
fn replay_one<'a>(
    content: &mut Vec<u8>,
    call: DiskCall,
    written: &'a [u8],
) -> Result<&'a [u8], NoMemory>
    requires logged { written_by (call ∷ []) ≤ length written.now }
    requires short { IsShort call }
    ensures rest { IfOk result (λ rest. rest.now ≡ drop (written_by (call ∷ [])) written.now) }
    ensures content { OnOk result (content.new.items ≡ replayed content.old.items (call ∷ []) written.now) }
{
    match call {
        DiskCall::Write { at, count, is_ok } => {
            let (bytes, rest) = written.split_at(count as usize);
            put_if(content, at as usize, bytes, is_ok)?;
            Ok(rest)
        }
        DiskCall::Sync { .. } => Ok(written),
    }
}

// Fills the range of each write, one after another.
fn fill_all(content: &mut Vec<u8>, calls: &[DiskCall], byte: u8) -> Result<(), NoMemory>
    requires { AreShort calls.now }
    ensures { OnOk result (content.new.items ≡ filled_by byte content.old.items calls.now) }
{
    let mut left = calls;
    while let [call, later @ ..] = left {
        fill_one(content, *call, byte)?;
        left = later;
    }
    Ok(())
}

fn fill_one(content: &mut Vec<u8>, call: DiskCall, byte: u8) -> Result<(), NoMemory>
    requires { IsShort call }
    ensures { OnOk result (content.new.items ≡ filled_by byte content.old.items (call ∷ [])) }
{
    match call {
        DiskCall::Write { at, count, .. } => fill(content, at as usize, count as usize, byte),
        DiskCall::Sync { .. } => Ok(()),
    }
}
