ghost use Rattle.std.specs.Prelude.{◌≡◌};

use eris_base::NoMemory;

/// Why a call ended before its text was written.
#[derive(Clone, Copy, Debug, PartialEq, Eq)]
pub enum Failure {
    /// The stream failed.
    Fault,
    /// An allocation was refused.
    NoMemory,
}

impl From<NoMemory> for Failure {
    ghost use Rattle.eris_status.specs.declared.failure.Failure.TheVariants.{NoMemory as out_of_memory};

    ghost from_gives = { λ _ failure. failure ≡ out_of_memory };

    fn from(_: NoMemory) -> Failure {
        Failure::NoMemory
    }
}
