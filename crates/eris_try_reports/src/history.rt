use crate::words::txn_id;
use anyhow::{Context, bail};
use eris_base::{ClientId, Row};
use eris_event::Event;
use eris_grammar::{Line, parse_line};
use eris_txn::{Answer, HistoryEvent, OpAnswer, Txn};
use std::alloc::Global;

/// What happened, by its kind and what the line says behind that.
pub(crate) fn event(alloc: Global, kind: &str, text: &str) -> anyhow::Result<HistoryEvent> {
    let (name, said) = text.split_once(' ').context("a line of two words")?;
    match kind {
        "submit" => Ok(HistoryEvent::Submit(txn_id(name)?, txn(alloc, said)?)),
        "read" => Ok(HistoryEvent::Read(txn_id(name)?, values(alloc, said)?)),
        "answer" => Ok(HistoryEvent::Answer(txn_id(name)?, answer(alloc, said)?)),
        "told" => told(alloc, ClientId(name.parse::<u8>()?), said),
        _ => bail!("no such line: {kind}"),
    }
}

fn told(alloc: Global, client: ClientId, text: &str) -> anyhow::Result<HistoryEvent> {
    let (name, said) = text.split_once(' ').context("no answer")?;
    Ok(HistoryEvent::Told(client, txn_id(name)?, answer(alloc, said)?))
}

/// The transaction that a line of a script submits.
fn txn(alloc: Global, line: &str) -> anyhow::Result<Txn> {
    match parse_line(alloc, 1, line.as_bytes()) {
        Ok(Line::One(Event::Submit { ops, .. })) => Ok(Txn::Whole(ops)),
        Ok(Line::One(Event::General { plan, .. })) => Ok(Txn::General(plan)),
        _ => bail!("no transaction: {line}"),
    }
}

fn answer(alloc: Global, text: &str) -> anyhow::Result<Answer> {
    match text.split_once(' ') {
        Some(("ops", said)) => Ok(Answer::Ops(op_answers(alloc, said)?)),
        Some(("values", said)) => Ok(Answer::Values(values(alloc, said)?)),
        None if text == "Committed" => Ok(Answer::Committed),
        None if text == "Aborted" => Ok(Answer::Aborted),
        _ => bail!("no such answer: {text}"),
    }
}

fn op_answers(alloc: Global, text: &str) -> anyhow::Result<Row<OpAnswer>> {
    let mut answers = Row::new(alloc);
    for word in text.split(' ') {
        answers.push(op_answer(word)?)?;
    }
    Ok(answers)
}

fn op_answer(word: &str) -> anyhow::Result<OpAnswer> {
    match word {
        "Absent" => Ok(OpAnswer::Absent),
        "Done" => Ok(OpAnswer::Done),
        "Yes" => Ok(OpAnswer::Yes),
        "No" => Ok(OpAnswer::No),
        _ => Ok(OpAnswer::Value(word.parse::<u64>()?)),
    }
}

fn values(alloc: Global, text: &str) -> anyhow::Result<Row<Option<u64>>> {
    let mut values = Row::new(alloc);
    for word in text.split(' ') {
        values.push(value(word)?)?;
    }
    Ok(values)
}

fn value(word: &str) -> anyhow::Result<Option<u64>> {
    match word {
        "None" => Ok(None),
        _ => Ok(Some(word.parse::<u64>()?)),
    }
}
