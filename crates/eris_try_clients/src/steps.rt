ghost use Rattle.std.specs.Prelude.{◌≡◌, false};

use crate::making::{config, txn};
use anyhow::{Context, bail};
use eris_base::{NoMemory, Row};
use eris_client::{Client, RetryFault, knows_txn};
use eris_msg::{Outgoing, decode};
use eris_txn::HistoryEvent;
use std::alloc::Global;

/// What comes of the step of these words, or what the client's calls tell.
pub(crate) fn act(alloc: Global, client: &mut Client, words: &str) -> anyhow::Result<String>
    ensures { client.new.spent ≡ false → (client.old.spent ≡ false) × (client.new.me ≡ client.old.me) }
{
    match words.split_once(' ') {
        Some(("submit", name)) => submit(alloc, client, name),
        Some(("retry", number)) => retry(alloc, client, number),
        Some(("receive", digits)) => receive(alloc, client, digits),
        Some(("step", digits)) => step(alloc, client, digits),
        None if words == "?" => tell(alloc, client),
        _ => bail!("no such step: {words}"),
    }
}

fn submit(alloc: Global, client: &mut Client, name: &str) -> anyhow::Result<String>
    ensures { client.new.spent ≡ false → (client.old.spent ≡ false) × (client.new.me ≡ client.old.me) }
{
    let txn = txn(alloc, name)?;
    if client.is_spent() || client.submitted() == u32::MAX || !knows_txn(&config()?, &txn) {
        bail!("it can't be submitted");
    }
    let (id, sends) = client.submit(txn)?;
    Ok(format!(in alloc; "number {}, {} sent", id.number, sends.len())?)
}

fn retry(alloc: Global, client: &mut Client, number: &str) -> anyhow::Result<String>
    ensures { client.new.spent ≡ false → (client.old.spent ≡ false) × (client.new.me ≡ client.old.me) }
{
    let number = number.parse::<u32>()?;
    if client.is_spent() {
        bail!("the client is spent");
    }
    match client.retry(number) {
        Ok(sends) => Ok(format!(in alloc; "{} sent", sends.len())?),
        Err(RetryFault::NoSuchTxn) => Ok(format!(in alloc; "no such transaction")?),
        Err(RetryFault::NoMemory) => Err(NoMemory.into()),
    }
}

fn receive(alloc: Global, client: &mut Client, digits: &str) -> anyhow::Result<String>
    ensures { client.new.spent ≡ false → (client.old.spent ≡ false) × (client.new.me ≡ client.old.me) }
{
    let bytes = hex::decode(alloc, digits)?;
    if client.is_spent() {
        bail!("the client is spent");
    }
    let (sends, event) = client.receive(bytes.as_slice())?;
    happened(alloc, sends.as_slice(), &event)
}

fn step(alloc: Global, client: &mut Client, digits: &str) -> anyhow::Result<String>
    ensures { client.new.spent ≡ false → (client.old.spent ≡ false) × (client.new.me ≡ client.old.me) }
{
    let bytes = hex::decode(alloc, digits)?;
    if client.is_spent() {
        bail!("the client is spent");
    }
    let (sends, event) = client.step(decode(alloc, bytes.as_slice())?)?;
    happened(alloc, sends.as_slice(), &event)
}

fn happened(
    alloc: Global,
    sends: &[Outgoing],
    event: &Option<HistoryEvent>,
) -> anyhow::Result<String> {
    match event {
        Some(event) => Ok(format!(in alloc; "{} sent, {event:?}", sends.len())?),
        None => Ok(format!(in alloc; "{} sent, nothing", sends.len())?),
    }
}

fn tell(alloc: Global, client: &Client) -> anyhow::Result<String> {
    let spent = client.is_spent();
    if spent {
        bail!("the client is spent");
    }
    let submitted = client.submitted();
    let (first, second) = (client.has_submitted(1), client.has_submitted(2));
    let plan = client.plan(1).is_some();
    let counts = format!(in alloc; "submitted {submitted}, has 1: {first}, has 2: {second}")?;
    Ok(format!(in alloc; "{counts}, 1 has a plan: {plan}, spent: {spent}")?)
}
