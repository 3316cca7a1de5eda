ghost use Rattle.std.specs.Prelude.{◌≡◌};
ghost use Rattle.eris_network.specs.declared.send_fault.SendFault.TheVariants.{NoMemory as out_of_memory};

use eris_base::NoMemory;
use thiserror::Error;

/// Why messages were not sent.
#[derive(Clone, Copy, Debug, PartialEq, Eq, Error)]
pub enum SendFault {
    /// The sent packets would be more than 262,144.
    #[error("too many packets")]
    Packets,
    /// The frames of the sent packets would be more than 67,108,864 bytes.
    #[error("too many bytes")]
    Bytes,
    /// An allocation was refused.
    #[error("no memory")]
    NoMemory,
}

impl From<NoMemory> for SendFault {
    ghost from_gives = { λ _ fault. fault ≡ out_of_memory };

    fn from(_: NoMemory) -> SendFault {
        SendFault::NoMemory
    }
}
