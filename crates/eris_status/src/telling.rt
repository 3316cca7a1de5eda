ghost use Rattle.std.specs.Prelude.{◌≡◌, ◌≤◌, Err, OnOk};
ghost use Rattle.std.specs.Io.KnownBytes.{Appends};
ghost use Rattle.eris_stream.specs.Faults.{Rose};
ghost use Rattle.eris_stream.specs.Transfers.{TakesFront};

use crate::failure::Failure;
use eris_stream::{Failed, Sink, write_all};

/// Writes a text, for whose length it first makes room.
///
/// # Errors
///
/// `Fault` where the sink failed, after a prefix of the text. `NoMemory` where there was no room; then
/// nothing was written.
pub fn tell<K: Sink>(snk: &mut K, text: &[u8]) -> Result<(), Failure>
    ensures ok { OnOk result (Appends (K.taken snk.old) (K.taken snk.new) text.now) }
    ensures fault { result ≡ Err Failure.Fault
        → Rose (K.faults snk.old) (K.faults snk.new) × TakesFront (K.taken snk.old) (K.taken snk.new) text.now }
    ensures memory { result ≡ Err Failure.NoMemory → K.taken snk.new ≡ K.taken snk.old }
    ensures later { K.faults snk.old ≤ K.faults snk.new }
{
    if snk.reserve(text.len()).is_err() {
        return Err(Failure::NoMemory);
    }
    match write_all(snk, text) {
        Ok(()) => Ok(()),
        Err(Failed) => Err(Failure::Fault),
    }
}
