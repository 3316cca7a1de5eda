ghost use Rattle.std.specs.Prelude.{◌≡◌};
ghost use Rattle.eris_codec.specs.declared.fault.Stop.TheVariants.{NoMemory as out_of_memory};

use eris_base::NoMemory;
use thiserror::Error;

/// What is wrong with the first field, from the left, for which bytes are no message.
#[derive(Clone, Copy, Debug, PartialEq, Eq, Error)]
pub enum DecodeReason {
    /// The field isn't there whole.
    #[error("the bytes end within a message")]
    Short,
    /// The version is another one, or no message is of this kind.
    #[error("no such kind of message")]
    Kind,
    /// The field is in its range and isn't greater than the one before it.
    #[error("the items do not ascend")]
    Order,
    /// The field is out of its range.
    #[error("out of range")]
    Range,
    /// Bytes stand after a whole message.
    #[error("bytes after the message")]
    Trailing,
}

/// Why bytes were not decoded.
#[derive(Clone, Copy, Debug, PartialEq, Eq, Error)]
pub enum DecodeFault {
    #[error("no memory")]
    NoMemory,
    /// The bytes are no message. `at` counts bytes from 0: it is the first byte of the field that is
    /// wrong, and where that isn't there whole the number of all bytes.
    #[error("{reason} at byte {at}")]
    Bad { at: usize, reason: DecodeReason },
}

/// What is wrong with bytes, and how many bytes are left at that place.
#[derive(Clone, Copy, Debug, PartialEq, Eq)]
pub struct Wrong {
    pub left: usize,
    pub reason: DecodeReason,
}

/// Why a reader stopped.
#[derive(Clone, Copy, Debug, PartialEq, Eq)]
pub enum Stop {
    NoMemory,
    Wrong(Wrong),
}

impl From<NoMemory> for Stop {
    ghost from_gives = { λ _ e. e ≡ out_of_memory };

    fn from(_: NoMemory) -> Stop {
        Stop::NoMemory
    }
}
