ghost use Rattle.std.specs.Prelude.{◌≡◌, ◌↔◌, ◌<◌, [], IsTrue, IfOk, Some, None, length};
ghost use Rattle.eris_txn.specs.declared.answer.Answer.TheVariants.{Committed, Aborted};
ghost use Rattle.eris_base.specs.Each.{EachAfter};
ghost use Rattle.eris_audit.specs.IsSerial.{FollowsAnswered, HasItsLine, IsOrderLine, IsOutcome, IsToldOutcome, is_done, is_whole};
ghost use Rattle.eris_audit.specs.Lines.{line_of, lines_of, StandsOnce};
ghost use Rattle.eris_audit.specs.Turns.{is_in_turn, number_answered};
ghost use Rattle.eris_audit.specs.Verdicts.{alone, Finds};

use crate::order_line::OrderLine;
use crate::outcome::Outcome;
use crate::tables::{LineTable, SubmitTable};
use eris_base::{NoMemory, Same, TxnId};
use eris_txn::{Answer, HistoryEvent, Txn};

/// RULE 2: the number, from 1, of the first event of an id that should have a line and has none.
pub(crate) fn first_without_line(table: &LineTable, events: &[HistoryEvent]) -> Option<u32>
    requires { length events.now < 4294967296 }
    ensures { Finds (alone (HasItsLine table.now)) events.now result }
{
    for (place, event) in events.iter().enumerate() {
        if !has_its_line(table, event) {
            return Some(place as u32 + 1);
        }
    }
    None
}

fn has_its_line(table: &LineTable, event: &HistoryEvent) -> bool
    ensures { IsTrue result ↔ HasItsLine table.now event.now }
{
    match event {
        HistoryEvent::Submit(_, _) => true,
        HistoryEvent::Read(id, _) => table.has(id),
        HistoryEvent::Answer(id, _) => table.has(id),
        HistoryEvent::Told(_, id, answer) => !is_committed(answer) || table.has(id),
    }
}

fn is_committed(answer: &Answer) -> bool
    ensures { IsTrue result ↔ (answer.now ≡ Committed) }
{
    match answer {
        Answer::Committed => true,
        Answer::Ops(_) | Answer::Values(_) | Answer::Aborted => false,
    }
}

fn is_aborted(answer: &Answer) -> bool
    ensures { IsTrue result ↔ (answer.now ≡ Aborted) }
{
    match answer {
        Answer::Aborted => true,
        Answer::Ops(_) | Answer::Values(_) | Answer::Committed => false,
    }
}

/// RULE 5: the number, from 1, of the first event that tells what isn't the outcome.
pub(crate) fn first_wrong_told(table: &LineTable, events: &[HistoryEvent]) -> Option<u32>
    requires { length events.now < 4294967296 }
    ensures { Finds (alone (IsToldOutcome table.now)) events.now result }
{
    for (place, event) in events.iter().enumerate() {
        if !is_told_outcome(table, event) {
            return Some(place as u32 + 1);
        }
    }
    None
}

fn is_told_outcome(table: &LineTable, event: &HistoryEvent) -> bool
    ensures { IsTrue result ↔ IsToldOutcome table.now event.now }
{
    let HistoryEvent::Told(_, id, answer) = event else {
        return true;
    };
    is_outcome(table, id, answer) || (is_aborted(answer) && !table.has(id))
}

pub(crate) fn is_outcome(table: &LineTable, id: &TxnId, answer: &Answer) -> bool
    ensures { IsTrue result ↔ IsOutcome table.now id.now answer.now }
{
    match answer {
        Answer::Committed => is_some_outcome(table.outcome_of(id), Outcome::Committed),
        Answer::Aborted => is_some_outcome(table.outcome_of(id), Outcome::Aborted),
        Answer::Ops(_) | Answer::Values(_) => false,
    }
}

fn is_some_outcome(found: Option<Outcome>, outcome: Outcome) -> bool
    ensures { IsTrue result ↔ (found ≡ Some outcome) }
{
    match found {
        Some(other) => other.same(&outcome),
        None => false,
    }
}

/// RULE 1: the number, from 1, of the first line whose id stands before it, was never submitted, or has
/// an outcome of the other kind. Where there is none, the table then has the lines of the order.
pub(crate) fn first_wrong_line(
    table: &mut LineTable,
    history: &SubmitTable,
    order: &[OrderLine],
) -> Result<Option<u32>, NoMemory>
    requires few { length order.now < 4294967296 }
    requires empty { table.old ≡ [] }
    ensures found { IfOk result (λ found. Finds (IsOrderLine history.now) (lines_of order.now) found) }
    ensures table { IfOk result (λ found. found ≡ None → table.new ≡ lines_of order.now) }
{
    for (place, line) in order.iter().enumerate() {
        if !is_order_line(table, history, line) {
            return Ok(Some(place as u32 + 1));
        }
        table.add(line.id, line.outcome)?;
    }
    Ok(None)
}

fn is_order_line(table: &LineTable, history: &SubmitTable, line: &OrderLine) -> bool
    ensures { IsTrue result ↔ IsOrderLine history.now table.now (line_of line.now) }
{
    if table.has(&line.id) {
        return false;
    }
    match history.txn_of(&line.id) {
        Some(txn) => has_kind(txn, line.outcome),
        None => false,
    }
}

fn has_kind(txn: &Txn, outcome: Outcome) -> bool
    ensures { IsTrue result ↔ (is_done outcome ≡ is_whole txn.now) }
{
    match txn {
        Txn::Whole(_) => is_done(outcome),
        Txn::General(_) => !is_done(outcome),
    }
}

fn is_done(outcome: Outcome) -> bool
    ensures { result ≡ is_done outcome }
{
    match outcome {
        Outcome::Done => true,
        Outcome::Committed | Outcome::Aborted | Outcome::Pending => false,
    }
}

/// RULE 4: the number, from 1, of the first submit of an id whose line doesn't stand behind that of each
/// id that was answered before. Of those lines only the greatest number is kept.
pub(crate) fn first_out_of_turn(table: &LineTable, events: &[HistoryEvent]) -> Option<u32>
    requires few { length events.now < 4294967296 }
    requires few_lines { length table.now < 4294967296 }
    requires once { EachAfter StandsOnce [] table.now }
    ensures { Finds (FollowsAnswered table.now) events.now result }
{
    let mut greatest: usize = 0;
    for (place, event) in events.iter().enumerate() {
        if !is_in_turn(table, greatest, event) {
            return Some(place as u32 + 1);
        }
        greatest = greatest.max(number_answered(table, event));
    }
    None
}

fn is_in_turn(table: &LineTable, greatest: usize, event: &HistoryEvent) -> bool
    ensures { result ≡ is_in_turn table.now greatest event.now }
{
    let HistoryEvent::Submit(id, _) = event else {
        return true;
    };
    match table.place_of(id) {
        Some(place) => greatest <= place,
        None => true,
    }
}

fn number_answered(table: &LineTable, event: &HistoryEvent) -> usize
    requires { length table.now < 4294967296 }
    ensures { result ≡ number_answered table.now event.now }
{
    let HistoryEvent::Answer(id, _) = event else {
        return 0;
    };
    match table.place_of(id) {
        Some(place) => place + 1,
        None => 0,
    }
}
