ghost use Rattle.std.specs.Prelude.{◌≡◌};
ghost use Rattle.eris_client.specs.declared.fault.RetryFault.TheVariants.{NoMemory as out_of_memory};

use eris_base::NoMemory;
use thiserror::Error;

/// Why a transaction is not asked for again.
#[derive(Clone, Copy, Debug, PartialEq, Eq, Error)]
pub enum RetryFault {
    #[error("no memory")]
    NoMemory,
    /// The client has no transaction of this number.
    #[error("no such transaction")]
    NoSuchTxn,
}

impl From<NoMemory> for RetryFault {
    ghost from_gives = { λ _ e. e ≡ out_of_memory };

    fn from(_: NoMemory) -> RetryFault {
        RetryFault::NoMemory
    }
}
