ghost use Rattle.std.specs.Prelude.{◌≡◌, IfOk};
ghost use Rattle.eris_status.specs.Statuses.{HasText, IsRefusal, status_of};
ghost use Rattle.eris_status.specs.Texts.{too_large_text};

use crate::refused::{Refused, Why};
use crate::status::Status;
use crate::texts::{refusal_text, too_large_text};
use eris_base::{NoMemory, Row};
use std::alloc::Global;

/// The text that is due, and the status of a call that has written it.
#[derive(Debug, Drop)]
pub struct Due {
    /// How the call ends, where the whole text is written.
    pub status: Status,
    /// What is written.
    pub text: Row<u8>,
}

fn status_of(line: u32, why: Why) -> Status
    ensures exact { result ≡ status_of line why }
    ensures has_text { HasText result }
{
    match why {
        Why::Reason(reason) => Status::BadScript { line, reason },
        Why::Limit(_) => Status::TooLarge { line },
    }
}

/// What is due for a refused line: `bad script: line L REASON` or `too large: line L WHAT`, and its status.
///
/// # Errors
///
/// [`NoMemory`] where an allocation was refused.
pub fn refuse_line(alloc: Global, refused: Refused) -> Result<Due, NoMemory>
    ensures { IfOk result (IsRefusal refused) }
{
    let text = refusal_text(alloc, refused)?;
    Ok(Due {
        status: status_of(refused.line, refused.why),
        text,
    })
}

/// What is due for more bytes than an input may have, whatever they are: `too large: input`.
///
/// # Errors
///
/// [`NoMemory`] where an allocation was refused.
pub fn refuse_input(alloc: Global) -> Result<Due, NoMemory>
    ensures { IfOk result (λ due. (due.status ≡ Status.TooLarge 0) × (due.text ≡ too_large_text)) }
{
    let text = too_large_text(alloc)?;
    Ok(Due {
        status: Status::TooLarge { line: 0 },
        text,
    })
}
