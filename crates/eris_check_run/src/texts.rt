ghost use Rattle.std.specs.Prelude.{◌≡◌, IfOk};
ghost use Rattle.eris_check_run.specs.VerdictTexts.{bad_report_text, broken_text, verdict_text, yes_text};

use eris_audit::Verdict;
use eris_base::{NoMemory, Row};
use eris_words::append_decimal;
use std::alloc::Global;

// What is written for a verdict: `yes`, or `no: rule R line N`.
pub(crate) fn verdict_text(alloc: Global, verdict: Verdict) -> Result<Row<u8>, NoMemory>
    ensures { IfOk result (λ text. text ≡ verdict_text verdict) }
{
    match verdict {
        Verdict::Yes => yes_text(alloc),
        Verdict::No { rule, line } => broken_text(alloc, rule, line),
    }
}

#[tactic(auto, unfolding(crate::specs::VerdictTexts::yes_text))]
fn yes_text(alloc: Global) -> Result<Row<u8>, NoMemory>
    ensures { IfOk result (λ text. text ≡ yes_text) }
{
    let mut text = Row::new(alloc);
    text.append(b"yes\n")?;
    Ok(text)
}

#[tactic(auto, unfolding(crate::specs::VerdictTexts::broken_text))]
fn broken_text(alloc: Global, rule: u8, line: u32) -> Result<Row<u8>, NoMemory>
    ensures { IfOk result (λ text. text ≡ broken_text rule line) }
{
    let mut text = Row::new(alloc);
    text.append(b"no: rule ")?;
    append_decimal(&mut text, u64::from(rule))?;
    text.append(b" line ")?;
    append_decimal(&mut text, u64::from(line))?;
    text.push(b'\n')?;
    Ok(text)
}

// What is written for bytes that are no report: `bad report: line L`.
#[tactic(auto, unfolding(crate::specs::VerdictTexts::bad_report_text))]
pub(crate) fn bad_report_text(alloc: Global, line: u32) -> Result<Row<u8>, NoMemory>
    ensures { IfOk result (λ text. text ≡ bad_report_text line) }
{
    let mut text = Row::new(alloc);
    text.append(b"bad report: line ")?;
    append_decimal(&mut text, u64::from(line))?;
    text.push(b'\n')?;
    Ok(text)
}
