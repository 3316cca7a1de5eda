ghost use Rattle.std.specs.Prelude.{◌≡◌, ◌++◌, List, ℕ, true, IfOk};
ghost use Rattle.eris_msg.specs.declared.message.Message.{Message};
ghost use Rattle.eris_msg.specs.Spellings.{spelling, message_fits, IsSpelling};

use crate::message::Message;
use crate::write_messages::put_message;
use eris_base::{NoMemory, Row};
use std::alloc::Global;

/// The one spelling of the message. The message's fields are in their ranges.
pub fn encode(alloc: Global, message: &Message) -> Result<Row<u8>, NoMemory>
    requires { message_fits message.now ≡ true }
    ensures exact { IfOk result (λ bytes. bytes ≡ spelling message.now) }
    ensures is { IfOk result (λ bytes. IsSpelling message.now bytes) }
{
    let mut out = Row::new(alloc);
    put_message(&mut out, message)?;
    Ok(out)
}

/// Two messages of one spelling are one, and no spelling begins another: where two spellings, each with
/// some bytes after it, are the same bytes, the messages and the bytes after them are the same.
#[tactic(auto, using(crate::proofs::Decodes::one_spelling))]
pub fn spellings_differ()
    ensures { (some other : Message) (after rest : List ℕ) → message_fits some ≡ true → message_fits other ≡ true
        → spelling some ++ after ≡ spelling other ++ rest → (some ≡ other) × (after ≡ rest) }
{}
