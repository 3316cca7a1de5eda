use crate::cases::Case;
use eris_migrate_run::migrate_due;
use eris_run::script_due;
use eris_status::{Due, Status};
use std::alloc::Global;

/// Migrates the script of the case, and tells whether that gives what is due; and how the runs end,
/// where the script is migrated.
pub(crate) fn try_case(alloc: Global, case: &Case) -> anyhow::Result<String> {
    let due = migrate_due(alloc, case.script.as_slice())?;
    if !is_as_told(case, &due) {
        return differing(alloc, &due);
    }
    if due.status != Status::Done {
        return Ok(String::from_str(alloc, "as told")?);
    }
    let ends = run_both(alloc, case.script.as_slice(), due.text.as_slice())?;
    Ok(format!(in alloc; "as told; {ends}")?)
}

fn is_as_told(case: &Case, due: &Due) -> bool {
    due.status.number() == case.status && due.text.as_slice() == case.text.as_slice()
}

/// What came in place of what is told.
fn differing(alloc: Global, due: &Due) -> anyhow::Result<String> {
    let text = String::from_utf8_lossy(alloc, due.text.as_slice())?;
    let status = due.status.number();
    Ok(format!(in alloc; "not as told: status {status}, {:?}", text.as_str())?)
}

/// How the runs of the script and of the migrated one end.
fn run_both(alloc: Global, script: &[u8], migrated: &[u8]) -> anyhow::Result<String> {
    let one = script_due(alloc, script)?;
    let other = script_due(alloc, migrated)?;
    if one.status != other.status || one.text.as_slice() != other.text.as_slice() {
        return Ok(String::from_str(alloc, "the runs differ")?);
    }
    let text = String::from_utf8_lossy(alloc, one.text.as_slice())?;
    let first = text.as_str().lines().next().unwrap_or("");
    let status = one.status.number();
    Ok(format!(in alloc; "both runs: status {status}, {first}")?)
}
