ghost use Rattle.std.specs.Prelude.{◌≡◌};
ghost use Rattle.eris_status.specs.Statuses.{status_number};

use eris_words::Reason;

/// How a call ended. The program ends with its number.
#[derive(Clone, Copy, Debug, PartialEq, Eq)]
pub enum Status {
    /// The call did what its words ask, and wrote its text.
    Done,
    /// The report that was read breaks a rule of serial orders.
    CheckedNo,
    /// The words are none that the call knows. Nothing was read or written.
    Usage,
    /// This is the first line of the script that is refused, lines counted from 1, and why.
    BadScript { line: u32, reason: Reason },
    /// The source failed. Nothing was written.
    ReadFault,
    /// The sink failed, after a prefix of the text.
    WriteFault,
    /// An allocation was refused. Nothing was written.
    NoMemory,
    /// Line 0: the source gave more bytes than a script may have. Else an event of this line would send
    /// more than may be sent.
    TooLarge { line: u32 },
    /// The bytes are no report: this is the first line with which they aren't, lines counted from 1.
    BadReport { line: u32 },
}

impl Status {
    /// The number that the program ends with, 0 to 8.
    pub fn number(&self) -> u8
        ensures { result ≡ status_number self.now }
    {
        match self {
            Status::Done => 0,
            Status::CheckedNo => 1,
            Status::Usage => 2,
            Status::BadScript { .. } => 3,
            Status::ReadFault => 4,
            Status::WriteFault => 5,
            Status::NoMemory => 6,
            Status::TooLarge { .. } => 7,
            Status::BadReport { .. } => 8,
        }
    }
}
