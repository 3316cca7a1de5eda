ghost use Rattle.std.specs.Prelude.{◌≡◌, ◌↔◌, ◌<◌, [], false, is_err, IsTrue, IfOk, OnOk, Some, None, length};
ghost use Rattle.std.specs.Option.{option_map};
ghost use Rattle.eris_txn.specs.declared.answer.Answer.TheVariants.{Values};
ghost use Rattle.eris_txn.specs.Keys.{no_values};
ghost use Rattle.eris_txn.specs.KeyValues.{values_of};
ghost use Rattle.eris_base.specs.Each.{EachAfter};
ghost use Rattle.eris_audit.specs.Histories.{is_submitted, txn_of};
ghost use Rattle.eris_audit.specs.IsSerial.{EqualsRun, GuardsHold, IsOrderLine};
ghost use Rattle.eris_audit.specs.Lines.{lines_of};
ghost use Rattle.eris_audit.specs.SerialRun.{left_by_step, result_in, results_of, step_result};
ghost use Rattle.eris_audit.specs.Verdicts.{alone, Finds};

use crate::order_line::OrderLine;
use crate::rules::is_outcome;
use crate::serial_store::SerialStore;
use crate::tables::{LineTable, SubmitTable};
use eris_base::{NoMemory, Row, Same, TxnId};
use eris_txn::{Answer, HistoryEvent, Txn};
use std::alloc::Global;

/// RULE 3 of the order: the number, from 1, of the first line that is `Committed` and of which a guard
/// fails in the serial run. Where there is none, `results` then has the result of each line.
pub(crate) fn first_failing_guard(
    alloc: Global,
    results: &mut Row<Answer>,
    history: &SubmitTable,
    order: &[OrderLine],
) -> Result<Option<u32>, NoMemory>
    requires few { length order.now < 4294967296 }
    requires empty { results.old ≡ [] }
    requires order_lines { EachAfter (IsOrderLine history.now) [] (lines_of order.now) }
    ensures found { IfOk result (λ found. Finds (GuardsHold history.now) (lines_of order.now) found) }
    ensures results { IfOk result (λ found. found ≡ None → results.new ≡ results_of (txn_of history.now) (lines_of order.now) no_values) }
{
    let mut store = SerialStore::new(alloc);
    for (place, line) in order.iter().enumerate() {
        let Some(answer) = run_line(&mut store, history, line)? else {
            return Ok(Some(place as u32 + 1));
        };
        results.push(answer)?;
    }
    Ok(None)
}

fn run_line(
    store: &mut SerialStore,
    history: &SubmitTable,
    line: &OrderLine,
) -> Result<Option<Answer>, NoMemory>
    requires unspent { store.old.spent ≡ false }
    requires submitted { IsTrue (is_submitted history.now line.now.id) }
    ensures answer { IfOk result (λ answer. answer ≡ step_result (txn_of history.now line.now.id) line.now.outcome (values_of store.old.entries)) }
    ensures left { OnOk result (values_of store.new.entries ≡ left_by_step (txn_of history.now line.now.id) line.now.outcome (values_of store.old.entries)) }
    ensures spent { store.new.spent ≡ is_err result }
{
    let Some(txn) = history.txn_of(&line.id) else {
        unreachable!();
    };
    store.run(txn, line.outcome)
}

/// RULE 3 of the history: the number, from 1, of the first event that reads or answers what the serial
/// run, of which `results` are the results, doesn't have.
pub(crate) fn first_off_run(
    table: &LineTable,
    history: &SubmitTable,
    results: &[Answer],
) -> Option<u32>
    requires few { length history.now < 4294967296 }
    requires results { results.now ≡ results_of (txn_of history.now) table.now no_values }
    ensures { Finds (alone (EqualsRun history.now table.now)) history.now result }
{
    let events = history.events();
    for (place, event) in events.iter().enumerate() {
        if !equals_run(table, history, results, event) {
            return Some(place as u32 + 1);
        }
    }
    None
}

fn equals_run(
    table: &LineTable,
    history: &SubmitTable,
    results: &[Answer],
    event: &HistoryEvent,
) -> bool
    requires { results.now ≡ results_of (txn_of history.now) table.now no_values }
    ensures { IsTrue result ↔ EqualsRun history.now table.now event.now }
{
    match event {
        HistoryEvent::Submit(_, _) => true,
        HistoryEvent::Told(_, _, _) => true,
        HistoryEvent::Read(id, values) => is_read(find_result(table, history, results, id), values),
        HistoryEvent::Answer(id, answer) => match history.txn_of(id) {
            Some(Txn::General(_)) => is_outcome(table, id, answer),
            Some(Txn::Whole(_)) => is_result(find_result(table, history, results, id), answer),
            None => is_result(find_result(table, history, results, id), answer),
        },
    }
}

fn is_read(found: Option<&Answer>, values: &Row<Option<u64>>) -> bool
    ensures { IsTrue result ↔ (option_map (λ answer. answer.now) found.entry ≡ Some (Values values.now)) }
{
    match found {
        Some(Answer::Values(read)) => read.same(values),
        Some(Answer::Ops(_) | Answer::Committed | Answer::Aborted) => false,
        None => false,
    }
}

fn is_result(found: Option<&Answer>, answer: &Answer) -> bool
    ensures { IsTrue result ↔ (option_map (λ answer. answer.now) found.entry ≡ Some answer.now) }
{
    match found {
        Some(result) => result.same(answer),
        None => false,
    }
}

fn find_result<'a>(
    table: &LineTable,
    history: &SubmitTable,
    results: &'a [Answer],
    id: &TxnId,
) -> Option<&'a Answer>
    requires { results.now ≡ results_of (txn_of history.now) table.now no_values }
    ensures { option_map (λ answer. answer.now) result ≡ result_in (txn_of history.now) table.now no_values id.now }
{
    match table.place_of(id) {
        Some(place) => results.get(place),
        None => None,
    }
}
