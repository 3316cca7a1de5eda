ghost use Rattle.std.specs.Prelude.{◌≡◌, ◌≤◌, ◌<◌, length, IfOk};
ghost use Rattle.eris_audit.specs.Lines.{lines_of};
ghost use Rattle.eris_audit.specs.Verdicts.{IsVerdict};
ghost use Rattle.eris_check_run.specs.Checks.{IsCheckDue, IsJudged, IsVerdictDue, check_limit};
ghost use Rattle.eris_check_run.specs.VerdictTexts.{bad_report_text, verdict_status, verdict_text};

use crate::texts::{bad_report_text, verdict_text};
use eris_audit::{Verdict, audit};
use eris_base::NoMemory;
use eris_check::{ReportFault, bytes_are_judged, parse_report};
use eris_event::Report;
use eris_status::{Due, Status, refuse_input};
use std::alloc::Global;

/// How many bytes a report may have, to be judged.
pub const CHECK_LIMIT: usize = 67_108_864;

/// What is due for these bytes, which are read as a report: `Done` and `yes` where its history is
/// serial in its order; `CheckedNo` and `no: rule R line N` where it isn't, with the least rule
/// that is broken and its first line; `BadReport` and `bad report: line L` where they are no
/// report, with the first line that doesn't fit; `TooLarge` with line 0 and `too large: input`
/// where they are more than [`CHECK_LIMIT`]. docs/SCRIPT.md has the five rules, under "Reports that
/// are judged".
///
/// # Errors
///
/// [`NoMemory`] where an allocation was refused.
#[tactic(auto, using(crate::proofs::Judging::reports_past, crate::proofs::Judging::reports_judged))]
pub fn check_due(alloc: Global, bytes: &[u8]) -> Result<Due, NoMemory>
    ensures { IfOk result (IsCheckDue bytes.now) }
{
    bytes_are_judged();
    if bytes.len() > CHECK_LIMIT {
        return refuse_input(alloc);
    }
    judge(alloc, bytes)
}

// What is due for these bytes, which are few enough to be judged.
#[tactic(auto, using(crate::proofs::Judging::verdicts_judged, crate::proofs::Judging::misfits_judged, crate::proofs::TextLengths::few_events, crate::proofs::TextLengths::few_lines))]
fn judge(alloc: Global, bytes: &[u8]) -> Result<Due, NoMemory>
    requires { length bytes.now ≤ check_limit }
    ensures { IfOk result (IsJudged bytes.now) }
{
    match parse_report(alloc, bytes) {
        Ok(report) => judge_report(alloc, &report),
        Err(ReportFault::Bad { line }) => refuse_report(alloc, line),
        Err(ReportFault::NoMemory) => Err(NoMemory),
    }
}

// What is due for a report, by the verdict on its history and order.
fn judge_report(alloc: Global, report: &Report) -> Result<Due, NoMemory>
    requires few_events { length report.now.history < 4294967296 }
    requires few_lines { length report.now.order < 4294967296 }
    ensures { IfOk result (IsVerdictDue report.now) }
{
    let verdict = audit(alloc, report.history.as_slice(), report.order.as_slice())?;
    tell_verdict(alloc, verdict)
}

// What is due for a verdict.
fn tell_verdict(alloc: Global, verdict: Verdict) -> Result<Due, NoMemory>
    ensures { IfOk result (λ due. (due.status ≡ verdict_status verdict) × (due.text ≡ verdict_text verdict)) }
{
    let text = verdict_text(alloc, verdict)?;
    Ok(Due {
        status: verdict_status(verdict),
        text,
    })
}

fn verdict_status(verdict: Verdict) -> Status
    ensures { result ≡ verdict_status verdict }
{
    match verdict {
        Verdict::Yes => Status::Done,
        Verdict::No { .. } => Status::CheckedNo,
    }
}

// What is due for bytes that are no report, of which this is the first line that doesn't fit.
fn refuse_report(alloc: Global, line: u32) -> Result<Due, NoMemory>
    ensures { IfOk result (λ due. (due.status ≡ Status.BadReport line) × (due.text ≡ bad_report_text line)) }
{
    let text = bad_report_text(alloc, line)?;
    Ok(Due {
        status: Status::BadReport { line },
        text,
    })
}
