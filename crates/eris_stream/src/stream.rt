ghost use Rattle.std.specs.Prelude.{◌≡◌, ◌+◌, ◌<◌, ◌≤◌, ℕ, List, Option, length, IfOk, OnOk, MatchResult};
ghost use Rattle.std.specs.Io.{ReadsAtMost};
ghost use Rattle.std.specs.Io.KnownBytes.{ReadConsumes, WriteAppends};
ghost use Rattle.eris_stream.specs.Faults.{HasCause};

use eris_base::NoMemory;
use thiserror::Error;

/// A read or a write failed on the outside, and the stream's count of faults has risen.
#[derive(Clone, Copy, Debug, PartialEq, Eq, Error)]
#[error("a read or a write failed")]
pub struct Failed;

/// Where bytes come from.
pub trait Source {
    // The bytes still to come, where they are known.
    ghost left: { Self → Option (List ℕ) };

    // How many reads failed. It never falls.
    ghost faults: { Self → ℕ };

    /// Puts bytes at the front of `buf`, takes them off what is left, and answers how many there are.
    /// The answer 0 for a buffer that isn't empty is the end.
    ///
    /// # Errors
    ///
    /// [`Failed`] only where the count of faults rose, and what is left stays.
    fn read(&mut self, buf: &mut [u8]) -> Result<usize, Failed>
        ensures bound { ReadsAtMost result buf.new }
        ensures bytes { ReadConsumes (left self.old) (left self.new) result buf.new }
        ensures cause { HasCause (faults self.old) (faults self.new) result };
}

/// Where bytes go to.
pub trait Sink {
    // The bytes taken so far, where they are known.
    ghost taken: { Self → Option (List ℕ) };

    // How many writes failed. It never falls.
    ghost faults: { Self → ℕ };

    // For how many bytes more there is room.
    ghost spare: { Self → ℕ };

    /// Makes room for `more` bytes, and changes nothing else.
    ///
    /// # Errors
    ///
    /// [`NoMemory`] where an allocation was refused.
    fn reserve(&mut self, more: usize) -> Result<(), NoMemory>
        ensures room { OnOk result (more ≤ spare self.new) }
        ensures taken { taken self.new ≡ taken self.old }
        ensures faults { faults self.new ≡ faults self.old };

    /// Takes bytes from the front of `bytes`, and answers how many, at least one if there is one. It
    /// takes no memory.
    ///
    /// # Errors
    ///
    /// [`Failed`] only where the count of faults rose; what is taken and the room stay.
    fn write(&mut self, bytes: &[u8]) -> Result<usize, Failed>
        requires { length bytes.now ≤ spare self.old }
        ensures bound { IfOk result (λ n. n ≤ length bytes.now) }
        ensures progress { IfOk result (λ n. 0 < length bytes.now → 0 < n) }
        ensures bytes { WriteAppends (taken self.old) (taken self.new) result bytes.now }
        ensures spare { MatchResult result (λ n. spare self.old ≤ spare self.new + n) (λ _. spare self.new ≡ spare self.old) }
        ensures cause { HasCause (faults self.old) (faults self.new) result };
}
