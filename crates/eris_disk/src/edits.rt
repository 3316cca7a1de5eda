ghost use Rattle.std.specs.Prelude.{◌≡◌, ◌+◌, ◌^◌, ◌<◌, ◌≤◌, length, replicate, vec_capacity, IsOk, OnOk};
ghost use Rattle.eris_disk.specs.Disks.{overwritten};
ghost use Rattle.eris_disk.specs.Histories.{widened, filled, after_write};

use eris_base::NoMemory;

// Writes the bytes over those from `at` on.
fn copy_over(content: &mut [u8], at: usize, bytes: &[u8])
    requires { at + length bytes.now ≤ length content.old }
    ensures { content.new ≡ overwritten content.old at bytes.now }
{
    content[at..at + bytes.len()].copy_from_slice(bytes);
}

// Fills so many bytes from `at` on with one.
fn fill_over(content: &mut [u8], at: usize, count: usize, fill: u8)
    requires { at + count ≤ length content.old }
    ensures { content.new ≡ overwritten content.old at (replicate count fill) }
{
    content[at..at + count].fill(fill);
}

// Adds bytes of one kind up to a length; without memory it leaves the content.
fn widen(content: &mut Vec<u8>, size: usize, fill: u8) -> Result<(), NoMemory>
    ensures widened { OnOk result (content.new.items ≡ widened content.old.items size fill) }
    ensures capacity { vec_capacity content.old ≤ vec_capacity content.new }
    ensures succeeds { size ≤ vec_capacity content.old → IsOk result }
{
    if content.len() < size {
        content.resize(size, fill)?;
    }
    Ok(())
}

// Writes the bytes at `at`, over what is there and past the end.
fn put(content: &mut Vec<u8>, at: usize, bytes: &[u8]) -> Result<(), NoMemory>
    requires { at + length bytes.now < 2 ^ 64 }
    ensures put { OnOk result (content.new.items ≡ overwritten (widened content.old.items (at + length bytes.now) 0) at bytes.now) }
    ensures capacity { vec_capacity content.old ≤ vec_capacity content.new }
    ensures succeeds { at + length bytes.now ≤ vec_capacity content.old → IsOk result }
{
    widen(content, at + bytes.len(), 0)?;
    copy_over(content.as_mut_slice(), at, bytes);
    Ok(())
}

// Writes the bytes so, if it is to be done at all.
pub(crate) fn put_if(
    content: &mut Vec<u8>,
    at: usize,
    bytes: &[u8],
    is_ok: bool,
) -> Result<(), NoMemory>
    requires { at + length bytes.now < 2 ^ 64 }
    ensures put { OnOk result (content.new.items ≡ after_write content.old.items at bytes.now is_ok) }
    ensures capacity { vec_capacity content.old ≤ vec_capacity content.new }
    ensures succeeds { at + length bytes.now ≤ vec_capacity content.old → IsOk result }
{
    if is_ok {
        put(content, at, bytes)?;
    }
    Ok(())
}

// Fills so many bytes from `at` on with one, and what it adds.
pub(crate) fn fill(content: &mut Vec<u8>, at: usize, count: usize, fill: u8) -> Result<(), NoMemory>
    requires { at + count < 2 ^ 64 }
    ensures { OnOk result (content.new.items ≡ filled content.old.items at count fill) }
{
    widen(content, at + count, fill)?;
    fill_over(content.as_mut_slice(), at, count, fill);
    Ok(())
}
