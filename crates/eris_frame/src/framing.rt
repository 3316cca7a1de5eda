ghost use Rattle.std.specs.Prelude.{◌≡◌, ◌<◌, ◌≤◌, ◌+◌, ◌++◌, length, IfOk, OnOk, OnErr, Err, ◌↔◌};
ghost use Rattle.eris_frame.specs.declared.framing.FrameFault.TheVariants.{NoMemory as out_of_memory};

use eris_base::{NoMemory, Row};
use std::alloc::Global;
use std::mem;
use thiserror::Error;

/// Why a message was not put on a stream, or none taken from it.
#[derive(Clone, Copy, Debug, PartialEq, Eq, Error)]
pub enum FrameFault {
    #[error("no memory")]
    NoMemory,
    /// A length is above 67,108,860.
    #[error("a message is too long")]
    Long,
}

impl From<NoMemory> for FrameFault {
    ghost from_gives = { λ _ fault. fault ≡ out_of_memory };

    fn from(_: NoMemory) -> FrameFault {
        FrameFault::NoMemory
    }
}

/// The length of the longest message.
pub(crate) const LONGEST: usize = 67_108_860;

ghost use Rattle.eris_frame.specs.Frames.{frame, longest};

/// Appends the message to a stream: its length in four bytes, and then its bytes.
///
/// # Errors
///
/// `Long` exactly where the message has more than 67,108,860 bytes. After an error `out` is as before.
#[tactic(auto, unfolding(crate::specs::Frames::frame, eris_codec::specs::Fields::word))]
pub fn put_frame(alloc: Global, out: &mut Row<u8>, message: &[u8]) -> Result<(), FrameFault>
    ensures ok { OnOk result (out.new ≡ out.old ++ frame message.now) }
    ensures err { OnErr result (out.new ≡ out.old) }
    ensures long { (result ≡ Err FrameFault.Long) ↔ (longest < length message.now) }
{
    if message.len() > LONGEST {
        return Err(FrameFault::Long);
    }
    let mut bytes = mem::replace(out, Row::new(alloc)).into_vec();
    let made = put_both(&mut bytes, &(message.len() as u32).to_be_bytes(), message);
    *out = Row::from_vec(bytes);
    made?;
    Ok(())
}

/// Appends one slice and then another, or neither.
fn put_both(bytes: &mut Vec<u8>, head: &[u8], rest: &[u8]) -> Result<(), NoMemory>
    requires { length head.now ≤ 4 }
    ensures ok { OnOk result (bytes.new.items ≡ bytes.old.items ++ (head.now ++ rest.now)) }
    ensures err { OnErr result (bytes.new.items ≡ bytes.old.items) }
{
    bytes.reserve(head.len() + rest.len())?;
    bytes.extend_from_slice(head).unwrap();
    bytes.extend_from_slice(rest).unwrap();
    Ok(())
}
