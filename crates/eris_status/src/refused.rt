ghost use Rattle.std.specs.Prelude.{◌≡◌};
ghost use Rattle.eris_status.specs.Stops.{stop_at, why_of};

use eris_base::NoMemory;
use eris_event::{Limit, Refusal};
use eris_words::Reason;

/// Why a line of a script is refused.
#[derive(Clone, Copy, Debug, PartialEq, Eq)]
pub enum Why {
    /// By the grammar, or by the state of the system that the script runs in.
    Reason(Reason),
    /// Since the system would send more than may be sent.
    Limit(Limit),
}

/// The first line of a script that is refused, lines counted from 1, and why.
#[derive(Clone, Copy, Debug, PartialEq, Eq)]
pub struct Refused {
    pub line: u32,
    pub why: Why,
}

/// Why a script wasn't run to its end.
#[derive(Clone, Copy, Debug, PartialEq, Eq)]
pub enum Stop {
    /// This line is refused.
    Refused(Refused),
    /// An allocation was refused.
    NoMemory,
}

impl From<NoMemory> for Stop {
    ghost use Rattle.eris_status.specs.declared.refused.Stop.TheVariants.{NoMemory as out_of_memory};

    ghost from_gives = { λ _ stop. stop ≡ out_of_memory };

    fn from(_: NoMemory) -> Stop {
        Stop::NoMemory
    }
}

// Why a line is refused whose event the world refuses. None for want of memory, which is no cause of that.
fn why_of(refusal: Refusal) -> Option<Why>
    ensures { result ≡ why_of refusal }
{
    let reason = match refusal {
        Refusal::NoSuchClient => Reason::NoSuchClient,
        Refusal::NoSuchShard => Reason::NoSuchShard,
        Refusal::NoSuchTxn => Reason::NoSuchTxn,
        Refusal::OwnTxn => Reason::OwnTxn,
        Refusal::NotGeneral => Reason::NotGeneral,
        Refusal::NoSuchPacket => Reason::NoSuchPacket,
        Refusal::NoSuchSequencer => Reason::NoSuchSequencer,
        Refusal::NoSuchReplica => Reason::NoSuchReplica,
        Refusal::Crashed => Reason::Crashed,
        Refusal::IsMessage => Reason::IsMessage,
        Refusal::NoMemory => return None,
        Refusal::Packets => return Some(Why::Limit(Limit::Packets)),
        Refusal::Bytes => return Some(Why::Limit(Limit::Bytes)),
    };
    Some(Why::Reason(reason))
}

/// The run stops at this line, since the world refused its event.
pub fn stop_at(line: u32, refusal: Refusal) -> Stop
    ensures { result ≡ stop_at line refusal }
{
    match why_of(refusal) {
        Some(why) => Stop::Refused(Refused { line, why }),
        None => Stop::NoMemory,
    }
}
