ghost use Rattle.std.specs.Prelude.{◌≡◌, ◌++◌, IfOk, OnOk, count_by};
ghost use Rattle.std.specs.List.{flat_map};
ghost use Rattle.eris_words.specs.Words.{line};
ghost use Rattle.eris_drill.specs.Summaries.{count_line, foot_lines, head_lines, history_lines, is_aborted, is_answer, is_committed, is_open, is_submit, order_lines, summary_text};

use eris_audit::{OrderLine, Outcome};
use eris_base::{NoMemory, Row};
use eris_event::Report;
use eris_txn::HistoryEvent;
use eris_words::append_decimal;
use std::alloc::Global;

fn put_count(out: &mut Row<u8>, name: &[u8], count: u64) -> Result<(), NoMemory>
    ensures { OnOk result (out.new ≡ out.old ++ line (count_line name.now count)) }
{
    out.append(name)?;
    out.push(b' ')?;
    append_decimal(out, count)?;
    out.push(b'\n')
}

#[tactic(auto, unfolding(crate::specs::Summaries::is_submit))]
fn is_submit(event: &HistoryEvent) -> bool
    ensures { result ≡ is_submit event.now }
{
    matches!(event, HistoryEvent::Submit(_, _))
}

fn submitted(history: &[HistoryEvent]) -> u64
    ensures { result ≡ count_by is_submit history.now }
{
    let mut count = 0;
    for event in history {
        if is_submit(event) {
            count += 1;
        }
    }
    count
}

#[tactic(auto, unfolding(crate::specs::Summaries::is_answer))]
fn is_answer(event: &HistoryEvent) -> bool
    ensures { result ≡ is_answer event.now }
{
    matches!(event, HistoryEvent::Answer(_, _))
}

fn answered(history: &[HistoryEvent]) -> u64
    ensures { result ≡ count_by is_answer history.now }
{
    let mut count = 0;
    for event in history {
        if is_answer(event) {
            count += 1;
        }
    }
    count
}

fn is_committed(line: &OrderLine) -> bool
    ensures { result ≡ is_committed line.now }
{
    matches!(line.outcome, Outcome::Committed)
}

fn committed(order: &[OrderLine]) -> u64
    ensures { result ≡ count_by is_committed order.now }
{
    let count = order.iter().filter(|line| is_committed(line)).count();
    count as u64
}

fn is_aborted(line: &OrderLine) -> bool
    ensures { result ≡ is_aborted line.now }
{
    matches!(line.outcome, Outcome::Aborted)
}

fn aborted(order: &[OrderLine]) -> u64
    ensures { result ≡ count_by is_aborted order.now }
{
    let count = order.iter().filter(|line| is_aborted(line)).count();
    count as u64
}

fn is_open(line: &OrderLine) -> bool
    ensures { result ≡ is_open line.now }
{
    matches!(line.outcome, Outcome::Pending)
}

fn open(order: &[OrderLine]) -> u64
    ensures { result ≡ count_by is_open order.now }
{
    let count = order.iter().filter(|line| is_open(line)).count();
    count as u64
}

#[tactic(auto, unfolding(crate::specs::Summaries::history_lines))]
fn put_history(out: &mut Row<u8>, report: &Report) -> Result<(), NoMemory>
    ensures { OnOk result (out.new ≡ out.old ++ flat_map line (history_lines report.now)) }
{
    let history = report.history.as_slice();
    put_count(out, b"submitted", submitted(history))?;
    put_count(out, b"answered", answered(history))
}

#[tactic(auto, unfolding(crate::specs::Summaries::order_lines))]
fn put_order(out: &mut Row<u8>, report: &Report) -> Result<(), NoMemory>
    ensures { OnOk result (out.new ≡ out.old ++ flat_map line (order_lines report.now)) }
{
    let order = report.order.as_slice();
    put_count(out, b"committed", committed(order))?;
    put_count(out, b"aborted", aborted(order))?;
    put_count(out, b"open", open(order))
}

#[tactic(auto, unfolding(crate::specs::Summaries::head_lines))]
fn put_head(out: &mut Row<u8>, number: u32, lines: u32) -> Result<(), NoMemory>
    ensures { OnOk result (out.new ≡ out.old ++ flat_map line (head_lines number lines)) }
{
    put_count(out, b"drill", u64::from(number))?;
    put_count(out, b"lines", u64::from(lines))
}

#[tactic(auto, unfolding(crate::specs::Summaries::foot_lines))]
fn put_foot(out: &mut Row<u8>, report: &Report, total: u64) -> Result<(), NoMemory>
    ensures { OnOk result (out.new ≡ out.old ++ flat_map line (foot_lines report.now total)) }
{
    put_count(out, b"sent", u64::from(report.sent))?;
    put_count(out, b"total", total)?;
    out.append(b"end\n")
}

/// The summary of a drill's run, each line ended by LF: the drill's number, the number of lines of its script with the
/// header, how many events of the report's history submit and answer, how many lines of its order are committed,
/// aborted and open, how many packets were sent, and the total of [`total`](crate::total).
#[tactic(auto, using(crate::proofs::Words::lines_joined), unfolding(crate::specs::Summaries::summary_text))]
pub fn print_summary(
    alloc: Global,
    number: u32,
    lines: u32,
    report: &Report,
    total: u64,
) -> Result<Row<u8>, NoMemory>
    ensures { IfOk result (λ text. text ≡ summary_text number lines report.now total) }
{
    let mut text = Row::new(alloc);
    put_head(&mut text, number, lines)?;
    put_history(&mut text, report)?;
    put_order(&mut text, report)?;
    put_foot(&mut text, report, total)?;
    Ok(text)
}
