ghost use Rattle.std.specs.Prelude.{◌≡◌};

use eris_base::NoMemory;
use eris_words::Reason;
use std::alloc::AllocError;

/// Why a script isn't migrated.
#[derive(Clone, Copy, Debug, PartialEq, Eq)]
pub enum MigrateFault {
    /// An allocation was refused.
    NoMemory,
    /// This is the first line that isn't read as one of a script of version 1, lines counted from 1, and why.
    Bad { line: u32, reason: Reason },
}

impl From<NoMemory> for MigrateFault {
    ghost use Rattle.eris_migrate.specs.declared.fault.MigrateFault.TheVariants.{NoMemory as out_of_memory};

    ghost from_gives = { λ _ fault. fault ≡ out_of_memory };

    fn from(_: NoMemory) -> MigrateFault {
        MigrateFault::NoMemory
    }
}

impl From<AllocError> for MigrateFault {
    ghost use Rattle.eris_migrate.specs.declared.fault.MigrateFault.TheVariants.{NoMemory as out_of_memory};

    ghost from_gives = { λ _ fault. fault ≡ out_of_memory };

    fn from(_: AllocError) -> MigrateFault {
        MigrateFault::NoMemory
    }
}
