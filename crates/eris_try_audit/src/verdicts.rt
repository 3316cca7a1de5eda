use crate::reading::{Case, read_case};
use anyhow::{bail, ensure};
use eris_audit::{OrderLine, Verdict, audit};
use eris_base::{Dup, NoMemory, Same};
use std::alloc::Global;

/// The verdict on the history and the order.
pub(crate) fn judge(alloc: Global, items: &str) -> anyhow::Result<String> {
    let case = read_case(alloc, items)?;
    match judged(alloc, &case)? {
        Verdict::Yes => Ok(format!(in alloc; "yes")?),
        Verdict::No { rule, line } => Ok(format!(in alloc; "rule {rule} line {line}")?),
    }
}

fn judged(alloc: Global, case: &Case) -> anyhow::Result<Verdict> {
    let history = case.history.as_slice();
    let order = case.order.as_slice();
    ensure!(history.len() < 100 && order.len() < 100, "too many items");
    Ok(audit(alloc, history, order)?)
}

/// Whether a copy of the second line of the order is the same as the first, and as the second.
pub(crate) fn compare(alloc: Global, items: &str) -> anyhow::Result<String> {
    let case = read_case(alloc, items)?;
    match case.order.as_slice() {
        [first, second] => compared(alloc, first, second),
        _ => bail!("not two lines of an order"),
    }
}

fn compared(alloc: Global, first: &OrderLine, second: &OrderLine) -> anyhow::Result<String> {
    let copy = second.copy(alloc)?;
    let outcome = second.outcome.copy(alloc)?;
    let same = first.same(&copy);
    let copied = second.same(&copy);
    let kept = copy.outcome.same(&outcome);
    Ok(format!(in alloc; "same: {same}, copied: {copied}, its outcome: {kept}")?)
}
