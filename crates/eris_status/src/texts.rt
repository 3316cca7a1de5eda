ghost use Rattle.std.specs.Prelude.{◌≡◌, IfOk};
ghost use Rattle.eris_status.specs.Texts.{bad_script_text, limit_text, refusal_text, too_large_text};

use crate::refused::{Refused, Why};
use eris_base::{NoMemory, Row};
use eris_event::Limit;
use eris_words::{Reason, append_decimal};
use std::alloc::Global;

#[tactic(auto, unfolding(crate::specs::Texts::bad_script_text))]
fn bad_script_text(alloc: Global, line: u32, reason: Reason) -> Result<Row<u8>, NoMemory>
    ensures { IfOk result (λ text. text ≡ bad_script_text line reason) }
{
    let mut text = Row::new(alloc);
    text.append(b"bad script: line ")?;
    append_decimal(&mut text, u64::from(line))?;
    text.push(b' ')?;
    text.append(reason.name().as_bytes())?;
    text.push(b'\n')?;
    Ok(text)
}

#[tactic(auto, unfolding(crate::specs::Texts::limit_text))]
fn limit_text(alloc: Global, line: u32, limit: Limit) -> Result<Row<u8>, NoMemory>
    ensures { IfOk result (λ text. text ≡ limit_text line limit) }
{
    let mut text = Row::new(alloc);
    text.append(b"too large: line ")?;
    append_decimal(&mut text, u64::from(line))?;
    text.push(b' ')?;
    text.append(limit.name().as_bytes())?;
    text.push(b'\n')?;
    Ok(text)
}

/// What is written where a source gives more than a script may have.
#[tactic(auto, unfolding(crate::specs::Texts::too_large_text))]
pub fn too_large_text(alloc: Global) -> Result<Row<u8>, NoMemory>
    ensures { IfOk result (λ text. text ≡ too_large_text) }
{
    let mut text = Row::new(alloc);
    text.append(b"too large: input\n")?;
    Ok(text)
}

/// What is written for a script that is refused at this line.
pub fn refusal_text(alloc: Global, refused: Refused) -> Result<Row<u8>, NoMemory>
    ensures { IfOk result (λ text. text ≡ refusal_text refused.line refused.why) }
{
    match refused.why {
        Why::Reason(reason) => bad_script_text(alloc, refused.line, reason),
        Why::Limit(limit) => limit_text(alloc, refused.line, limit),
    }
}
