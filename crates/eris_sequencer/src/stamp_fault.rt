ghost use Rattle.std.specs.Prelude.{◌≡◌};
ghost use Rattle.eris_sequencer.specs.declared.stamp_fault.StampFault.TheVariants.{NoMemory as memory_fault};

use eris_base::NoMemory;
use thiserror::Error;

/// Why a body wasn't stamped.
#[derive(Clone, Copy, Debug, PartialEq, Eq, Error)]
pub enum StampFault {
    /// The counter of a participant stands at its end.
    #[error("the counter of a participant stands at its end")]
    Full,
    /// An allocation was refused.
    #[error("no memory")]
    NoMemory,
}

impl From<NoMemory> for StampFault {
    ghost from_gives = { λ _ fault. fault ≡ memory_fault };

    fn from(_: NoMemory) -> StampFault {
        StampFault::NoMemory
    }
}
