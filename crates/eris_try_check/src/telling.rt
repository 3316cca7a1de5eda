use anyhow::ensure;
use eris_base::NoMemory;
use eris_check::{ReportFault, parse_report};
use eris_check_run::check_due;
use eris_event::Report;
use eris_report::print_report;
use std::alloc::Global;

/// The status and the text that the bytes are due, and what comes of reading them.
pub(crate) fn judged(alloc: Global, bytes: &[u8]) -> anyhow::Result<String> {
    let due = check_due(alloc, bytes)?;
    let status = due.status.number();
    let text = str::from_utf8(due.text.as_slice())?;
    let line = text.lines().next().unwrap_or("");
    let read = read(alloc, bytes)?;
    Ok(format!(in alloc; "{status} {line}, {read}")?)
}

fn read(alloc: Global, bytes: &[u8]) -> anyhow::Result<String> {
    ensure!(bytes.len() < 4_294_967_295, "too many bytes");
    match parse_report(alloc, bytes) {
        Ok(report) => Ok(String::from_str(alloc, printed(alloc, &report, bytes)?)?),
        Err(ReportFault::Bad { line }) => Ok(format!(in alloc; "bad at {line}")?),
        Err(ReportFault::NoMemory) => Err(NoMemory.into()),
    }
}

/// Whether printing the report gives these bytes.
fn printed(alloc: Global, report: &Report, bytes: &[u8]) -> Result<&'static str, NoMemory> {
    let text = print_report(alloc, report)?;
    if text.as_slice() == bytes {
        Ok("a report")
    } else {
        Ok("another text")
    }
}
