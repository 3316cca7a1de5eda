ghost use Rattle.std.specs.Prelude.{◌≡◌};

use crate::reason::Reason;
use eris_base::NoMemory;

/// Why a line gives no event.
#[derive(Clone, Copy, Debug, PartialEq, Eq)]
pub enum LineFault {
    /// The line is of no form; this is what is wrong with the first word that doesn't fit, or with the
    /// transaction that its words make.
    Bad(Reason),
    /// An allocation was refused.
    NoMemory,
}

impl From<NoMemory> for LineFault {
    ghost use Rattle.eris_words.specs.declared.line_fault.LineFault.TheVariants.{NoMemory as out_of_memory};

    ghost from_gives = { λ _ fault. fault ≡ out_of_memory };

    fn from(_: NoMemory) -> LineFault {
        LineFault::NoMemory
    }
}
