ghost use Rattle.std.specs.Prelude.{◌≡◌, length, Ok, IfOk, true};
ghost use Rattle.eris_msg.specs.declared.message.Message.{Message};
ghost use Rattle.eris_codec.specs.Answers.{Answers, Gives};
ghost use Rattle.eris_codec.specs.Codecs.{whole};
ghost use Rattle.eris_msg.specs.Messages.{message};
ghost use Rattle.eris_msg.specs.Spellings.{message_fits, IsSpelling};

use crate::message::Message;
use crate::read_messages::read_message;
use eris_codec::{DecodeFault, DecodeReason, Input, Stop, bad};
use std::alloc::Global;

/// The message that the bytes spell. It reserves no more than the bytes that are there allow.
///
/// # Errors
///
/// [`DecodeFault::Bad`] exactly where the bytes spell no message: it tells what is wrong with the first
/// field, from the left, that isn't there whole or breaks its rule, and where.
pub fn decode(alloc: Global, bytes: &[u8]) -> Result<Message, DecodeFault>
    ensures found { IfOk result (λ x. IsSpelling x bytes.now) }
    ensures fits { IfOk result (λ x. message_fits x ≡ true) }
    ensures only { (x : Message) → IsSpelling x bytes.now → Answers result (length bytes.now) (Ok x) }
    ensures exact { Answers result (length bytes.now) (whole message bytes.now) }
{
    placed(alloc, bytes)
}

/// A fault as one of all the bytes.
fn placed(alloc: Global, bytes: &[u8]) -> Result<Message, DecodeFault>
    ensures { Answers result (length bytes.now) (whole message bytes.now) }
{
    match read_whole(alloc, bytes) {
        Ok(message) => Ok(message),
        Err(Stop::NoMemory) => Err(DecodeFault::NoMemory),
        Err(Stop::Wrong(wrong)) => Err(DecodeFault::Bad {
            at: bytes.len().saturating_sub(wrong.left),
            reason: wrong.reason,
        }),
    }
}

fn read_whole(alloc: Global, bytes: &[u8]) -> Result<Message, Stop>
    ensures { Gives (λ x. x) result (whole message bytes.now) }
{
    let mut input = Input::new(bytes);
    let message = read_message(alloc, &mut input)?;
    let left = input.left();
    if left != 0 {
        return bad(left, DecodeReason::Trailing);
    }
    Ok(message)
}
