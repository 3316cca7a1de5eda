ghost use Rattle.std.specs.Prelude.{◌≡◌, ◌↔◌, ◌<◌, [], IfOk, length};
ghost use Rattle.eris_txn.specs.Keys.{no_values};
ghost use Rattle.eris_base.specs.Each.{EachAfter};
ghost use Rattle.eris_audit.specs.Histories.{txn_of};
ghost use Rattle.eris_audit.specs.IsSerial.{IsOrderLine, IsSerial};
ghost use Rattle.eris_audit.specs.Lines.{StandsOnce, lines_of};
ghost use Rattle.eris_audit.specs.SerialRun.{results_of};
ghost use Rattle.eris_audit.specs.Verdicts.{FromEvents, FromGuards, FromRule2, FromRule4, FromRule5, IsVerdict};
ghost use Rattle.eris_audit.specs.declared.verdict.Verdict.TheVariants.{Yes};

use crate::order_line::OrderLine;
use crate::rules::{first_out_of_turn, first_without_line, first_wrong_line, first_wrong_told};
use crate::run::{first_failing_guard, first_off_run};
use crate::tables::{LineTable, SubmitTable};
use crate::verdict::Verdict;
use eris_base::{NoMemory, Row};
use eris_txn::{Answer, HistoryEvent};
use std::alloc::Global;

/// Judges whether the history is serial in this order. It is `Yes` exactly where the five rules hold,
/// else `No` with the least rule that is broken and its first line. Each of the two lists has fewer than
/// 4,294,967,296 items.
///
/// 1. No id stands twice in the order, where the second of two is the broken line; each was submitted;
///    and an outcome is `Done` exactly for an independent transaction.
/// 2. Each id that read or was answered stands in the order, and so does each of which `Committed` was
///    told.
/// 3. The guards of each `Committed` line hold in the serial run; then each read and each answer equals
///    the serial run's.
/// 4. What was answered before a submit stands before it in the order, where both stand there. The line
///    is that submit's.
/// 5. What was told equals the order's outcome, or is `Aborted` where the id isn't in the order.
///
/// # Errors
///
/// [`NoMemory`] where an allocation was refused.
pub fn audit(
    alloc: Global,
    history: &[HistoryEvent],
    order: &[OrderLine],
) -> Result<Verdict, NoMemory>
    requires few_events { length history.now < 4294967296 }
    requires few_lines { length order.now < 4294967296 }
    ensures verdict { IfOk result (λ verdict. IsVerdict history.now (lines_of order.now) verdict) }
    ensures serial { IfOk result (λ verdict. (verdict ≡ Yes) ↔ IsSerial history.now (lines_of order.now)) }
{
    let verdict = judge(alloc, history, order)?;
    Ok(verdict)
}

fn judge(alloc: Global, history: &[HistoryEvent], order: &[OrderLine]) -> Result<Verdict, NoMemory>
    requires few_events { length history.now < 4294967296 }
    requires few_lines { length order.now < 4294967296 }
    ensures { IfOk result (λ verdict. IsVerdict history.now (lines_of order.now) verdict) }
{
    let submits = SubmitTable::new(alloc, history)?;
    let mut table = LineTable::new(alloc);
    match first_wrong_line(&mut table, &submits, order)? {
        Some(line) => Ok(Verdict::No { rule: 1, line }),
        None => {
            let verdict = judge_lines(alloc, &table, &submits, order)?;
            Ok(verdict)
        }
    }
}

/// The verdict where rule 1 holds.
fn judge_lines(
    alloc: Global,
    table: &LineTable,
    submits: &SubmitTable,
    order: &[OrderLine],
) -> Result<Verdict, NoMemory>
    requires few_events { length submits.now < 4294967296 }
    requires few_lines { length order.now < 4294967296 }
    requires lines { table.now ≡ lines_of order.now }
    requires order_lines { EachAfter (IsOrderLine submits.now) [] (lines_of order.now) }
    ensures { IfOk result (λ verdict. FromRule2 submits.now (lines_of order.now) verdict) }
{
    match first_without_line(table, submits.events()) {
        Some(line) => Ok(Verdict::No { rule: 2, line }),
        None => {
            let verdict = judge_guards(alloc, table, submits, order)?;
            Ok(verdict)
        }
    }
}

/// The verdict where rules 1 and 2 hold.
fn judge_guards(
    alloc: Global,
    table: &LineTable,
    submits: &SubmitTable,
    order: &[OrderLine],
) -> Result<Verdict, NoMemory>
    requires few_events { length submits.now < 4294967296 }
    requires few_lines { length order.now < 4294967296 }
    requires lines { table.now ≡ lines_of order.now }
    requires order_lines { EachAfter (IsOrderLine submits.now) [] (lines_of order.now) }
    ensures { IfOk result (λ verdict. FromGuards submits.now (lines_of order.now) verdict) }
{
    let mut results = Row::new(alloc);
    match first_failing_guard(alloc, &mut results, submits, order)? {
        Some(line) => Ok(Verdict::No { rule: 3, line }),
        None => Ok(judge_events(table, submits, results.as_slice())),
    }
}

/// The verdict where rules 1 and 2 hold and each guard does, with the results of the serial run.
fn judge_events(table: &LineTable, submits: &SubmitTable, results: &[Answer]) -> Verdict
    requires few_events { length submits.now < 4294967296 }
    requires few_lines { length table.now < 4294967296 }
    requires once { EachAfter StandsOnce [] table.now }
    requires results { results.now ≡ results_of (txn_of submits.now) table.now no_values }
    ensures { FromEvents submits.now table.now result }
{
    match first_off_run(table, submits, results) {
        Some(line) => Verdict::No { rule: 3, line },
        None => judge_turns(table, submits.events()),
    }
}

/// The verdict where rules 1 to 3 hold.
fn judge_turns(table: &LineTable, events: &[HistoryEvent]) -> Verdict
    requires few_events { length events.now < 4294967296 }
    requires few_lines { length table.now < 4294967296 }
    requires once { EachAfter StandsOnce [] table.now }
    ensures { FromRule4 events.now table.now result }
{
    match first_out_of_turn(table, events) {
        Some(line) => Verdict::No { rule: 4, line },
        None => judge_told(table, events),
    }
}

/// The verdict where rules 1 to 4 hold.
fn judge_told(table: &LineTable, events: &[HistoryEvent]) -> Verdict
    requires { length events.now < 4294967296 }
    ensures { FromRule5 events.now table.now result }
{
    match first_wrong_told(table, events) {
        Some(line) => Verdict::No { rule: 5, line },
        None => Verdict::Yes,
    }
}
