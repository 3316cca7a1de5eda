ghost use Rattle.std.specs.Prelude.{◌≡◌, ◌+◌, ◌<◌, ◌≤◌, length, drop, IfOk, OnOk, OnErr, IfSome, MatchResult};
ghost use Rattle.std.specs.Io.KnownBytes.{Appends};
ghost use Rattle.eris_stream.specs.Faults.{Rose, HasCause};
ghost use Rattle.eris_stream.specs.Transfers.{ReadsToEnd, ReadsSome, ReadsPast, TakesFront};
ghost use Rattle.eris_stream.specs.declared.transfer.ReadEnd.TheVariants.{Fault as fault_end, NoMemory as memory_end};

use crate::pieces::after;
use crate::stream::{Failed, Sink, Source};
use eris_base::{NoMemory, Row};
use std::alloc::Global;
use thiserror::Error;

/// Why a source wasn't read to its end.
#[derive(Clone, Copy, Debug, PartialEq, Eq, Error)]
pub enum ReadEnd {
    /// The source failed.
    #[error("the source failed")]
    Fault,
    /// More bytes came than the limit allows.
    #[error("more bytes came than the limit allows")]
    Long,
    /// An allocation was refused.
    #[error("no memory")]
    NoMemory,
}

impl From<Failed> for ReadEnd {
    ghost from_gives = { λ _ end. end ≡ fault_end };

    fn from(_: Failed) -> ReadEnd {
        ReadEnd::Fault
    }
}

impl From<NoMemory> for ReadEnd {
    ghost from_gives = { λ _ end. end ≡ memory_end };

    fn from(_: NoMemory) -> ReadEnd {
        ReadEnd::NoMemory
    }
}

/// Reads a source to its end, `limit` bytes at most.
///
/// # Errors
///
/// `Fault` only where the source's count of faults rose. `Long` exactly where more than `limit` bytes
/// came; then the reading stopped at the first byte past the limit. `NoMemory` where an allocation was
/// refused. The bytes that came before an error are gone.
pub fn read_all<S: Source>(alloc: Global, src: &mut S, limit: usize) -> Result<Row<u8>, ReadEnd>
    ensures ok { IfOk result (ReadsToEnd (S.left src.old) (S.left src.new) limit) }
    ensures long { result ≡ Err ReadEnd.Long → ReadsPast (S.left src.old) (S.left src.new) limit }
    ensures fault { result ≡ Err ReadEnd.Fault → Rose (S.faults src.old) (S.faults src.new) }

    // Where it is known what was left: an Ok has all of it, within the limit, and Long says that it was more.
    ensures all { IfSome (S.left src.old) (λ left. IfOk result (λ bytes. (bytes ≡ left) × (length left ≤ limit))) }
    ensures more { IfSome (S.left src.old) (λ left. result ≡ Err ReadEnd.Long → limit < length left) }

    // Whatever the answer.
    ensures some { ReadsSome (S.left src.old) (S.left src.new) limit }
    ensures later { S.faults src.old ≤ S.faults src.new }
{
    let mut piece = [0; 4096];
    let mut bytes = Row::new(alloc);
    while bytes.len() <= limit {
        let room = limit - bytes.len();
        let most = if room < 4096 { room + 1 } else { 4096 };
        let count = src.read(&mut piece[..most])?;
        if count == 0 {
            return Ok(bytes);
        }
        bytes.append(&piece[..count])?;
    }
    Err(ReadEnd::Long)
}

/// Writes all the bytes. It takes no memory.
///
/// # Errors
///
/// [`Failed`] only where the sink's count of faults rose; what was taken is then a prefix of `bytes`.
pub fn write_all<K: Sink>(snk: &mut K, bytes: &[u8]) -> Result<(), Failed>
    requires { length bytes.now ≤ K.spare snk.old }
    ensures ok { OnOk result (Appends (K.taken snk.old) (K.taken snk.new) bytes.now) }
    ensures err { OnErr result (TakesFront (K.taken snk.old) (K.taken snk.new) bytes.now) }
    ensures spare { K.spare snk.old ≤ K.spare snk.new + length bytes.now }
    ensures cause { HasCause (K.faults snk.old) (K.faults snk.new) result }
{
    let mut done = 0;
    while done < bytes.len() {
        done += snk.write(after(bytes, done))?;
    }
    Ok(())
}
