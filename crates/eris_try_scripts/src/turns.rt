use crate::cases::{Call, Case, Failing};
use crate::comparing::compare;
use crate::trial::{Ending, WRITE_MOST, run};
use std::alloc::Global;

/// How many faults are tried in turn at most.
const FAULTS_MOST: u32 = 1000;

/// The numbers of the statuses of a call whose source failed, and of one whose sink failed.
const READ_FAULT: u8 = 4;

const WRITE_FAULT: u8 = 5;

/// Runs the case, and tells what came of it.
pub(crate) fn try_case(alloc: Global, case: &Case) -> anyhow::Result<String> {
    match case.failing {
        Failing::Nothing => try_once(alloc, case, None),
        Failing::One(call, number) => try_once(alloc, case, Some((call, number))),
        Failing::EachInTurn(call) => try_each(alloc, case, call),
    }
}

fn try_once(alloc: Global, case: &Case, fault: Option<(Call, u32)>) -> anyhow::Result<String> {
    let ending = run(alloc, case, fault)?;
    Ok(compare(alloc, case, &ending)?)
}

/// Runs the case with the first call failing, then with the second, and so on until it ends otherwise than
/// by that fault.
fn try_each(alloc: Global, case: &Case, call: Call) -> anyhow::Result<String> {
    for faults in 0..FAULTS_MOST {
        let ending = run(alloc, case, Some((call, faults.saturating_add(1))))?;
        if !is_fault(case, call, faults, &ending) {
            let told = compare(alloc, case, &ending)?;
            return Ok(format!(in alloc; "{faults} faults in turn, then {told}")?);
        }
    }
    Ok(format!(in alloc; "{FAULTS_MOST} faults in turn, and no end")?)
}

/// Whether this is how a case ends whose call after so many others fails.
fn is_fault(case: &Case, call: Call, others: u32, ending: &Ending) -> bool {
    match call {
        Call::Read => ending.status == READ_FAULT && ending.written.is_empty(),
        Call::Write => ending.status == WRITE_FAULT && is_front(case, others, ending),
    }
}

/// Whether just what so many writes take of the report was written.
fn is_front(case: &Case, writes: u32, ending: &Ending) -> bool {
    let len = WRITE_MOST.saturating_mul(writes as usize);
    ending.written.len() == len && case.report.as_str().starts_with(ending.written.as_str())
}
