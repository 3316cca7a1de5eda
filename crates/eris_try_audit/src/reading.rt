use crate::txns::{general, whole};
use anyhow::{Context, bail};
use eris_audit::{OrderLine, Outcome};
use eris_base::{ClientId, Epoch, NoMemory, Row, ShardId, Stamp, TxnId};
use eris_txn::{Answer, HistoryEvent, OpAnswer};
use std::alloc::Global;

/// A history and an order.
#[derive(Debug, Drop)]
pub(crate) struct Case {
    pub(crate) history: Row<HistoryEvent>,
    pub(crate) order: Row<OrderLine>,
}

/// The case of these items.
pub(crate) fn read_case(alloc: Global, items: &str) -> anyhow::Result<Case> {
    let mut history = Row::new(alloc);
    let mut order = Row::new(alloc);
    for item in items.split(" | ") {
        match item.split_once(' ') {
            Some(("order", said)) => order.push(order_line(alloc, said)?)?,
            Some((kind, said)) => history.push(event(alloc, kind, said)?)?,
            None => bail!("`{item}` is no item"),
        }
    }
    Ok(Case { history, order })
}

fn event(alloc: Global, kind: &str, said: &str) -> anyhow::Result<HistoryEvent> {
    let (name, rest) = said.split_once(' ').context("an event that ends early")?;
    match kind {
        "submit" => Ok(HistoryEvent::Submit(id(name)?, whole(alloc, rest)?)),
        "general" => Ok(HistoryEvent::Submit(id(name)?, general(alloc, rest)?)),
        "read" => Ok(HistoryEvent::Read(id(name)?, values(alloc, rest)?)),
        "answer" => Ok(HistoryEvent::Answer(id(name)?, answer(alloc, rest)?)),
        "told" => told(alloc, name, rest),
        _ => bail!("`{kind}` is no event"),
    }
}

fn told(alloc: Global, asker: &str, said: &str) -> anyhow::Result<HistoryEvent> {
    let (name, rest) = said.split_once(' ').context("nothing that is told")?;
    let asker = ClientId(asker.parse::<u8>()?);
    Ok(HistoryEvent::Told(asker, id(name)?, answer(alloc, rest)?))
}

fn values(alloc: Global, words: &str) -> anyhow::Result<Row<Option<u64>>> {
    let mut values = Row::new(alloc);
    for word in words.split(' ') {
        values.push(value(word)?)?;
    }
    Ok(values)
}

fn value(word: &str) -> anyhow::Result<Option<u64>> {
    match word {
        "-" => Ok(None),
        _ => Ok(Some(word.parse::<u64>()?)),
    }
}

fn answer(alloc: Global, words: &str) -> anyhow::Result<Answer> {
    match words {
        "committed" => Ok(Answer::Committed),
        "aborted" => Ok(Answer::Aborted),
        _ => Ok(Answer::Ops(op_answers(alloc, words)?)),
    }
}

fn op_answers(alloc: Global, words: &str) -> anyhow::Result<Row<OpAnswer>> {
    let mut answers = Row::new(alloc);
    for word in words.split(' ') {
        answers.push(op_answer(word)?)?;
    }
    Ok(answers)
}

fn op_answer(word: &str) -> anyhow::Result<OpAnswer> {
    match word {
        "-" => Ok(OpAnswer::Absent),
        "ok" => Ok(OpAnswer::Done),
        "yes" => Ok(OpAnswer::Yes),
        "no" => Ok(OpAnswer::No),
        _ => Ok(OpAnswer::Value(word.parse::<u64>()?)),
    }
}

/// `ID OUTCOME` or `ID OUTCOME 0 0:N`.
fn order_line(alloc: Global, said: &str) -> anyhow::Result<OrderLine> {
    let (name, rest) = said.split_once(' ').context("a line without an outcome")?;
    let (word, places) = rest.split_once(' ').unwrap_or((rest, "0 0:1"));
    let number = places.strip_prefix("0 0:").context("another stamp")?;
    Ok(OrderLine {
        id: id(name)?,
        outcome: outcome(word)?,
        stamp: stamp(alloc, number.parse::<u32>()?)?,
    })
}

fn outcome(word: &str) -> anyhow::Result<Outcome> {
    match word {
        "done" => Ok(Outcome::Done),
        "committed" => Ok(Outcome::Committed),
        "aborted" => Ok(Outcome::Aborted),
        "open" => Ok(Outcome::Pending),
        _ => bail!("`{word}` is no outcome"),
    }
}

/// The stamp of epoch 0 with this number of shard 0.
fn stamp(alloc: Global, number: u32) -> Result<Stamp, NoMemory> {
    let mut places = Row::new(alloc);
    places.push((ShardId(0), number))?;
    Ok(Stamp {
        epoch: Epoch(0),
        places,
    })
}

fn id(name: &str) -> anyhow::Result<TxnId> {
    let (client, number) = name.split_once('.').context("an id without a number")?;
    Ok(TxnId {
        client: ClientId(client.parse::<u8>()?),
        number: number.parse::<u32>()?,
    })
}
