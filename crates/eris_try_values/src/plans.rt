use crate::keys::{key, keys, two, value};
use anyhow::{Context, bail};
use eris_base::{NoMemory, Row};
use eris_txn::{Body, Guard, How, Key, Lock, Mode, Plan, PlanFault, Setting, Write, participants};
use std::alloc::Global;

pub(crate) fn plan(alloc: Global, clauses: &str) -> anyhow::Result<String> {
    match plan_of(alloc, clauses)? {
        Ok(plan) => counts(alloc, &plan),
        Err(fault) => Ok(format!(in alloc; "{fault:?}")?),
    }
}

fn counts(alloc: Global, plan: &Plan) -> anyhow::Result<String> {
    let keys = plan.keys().len();
    let guards = plan.guards().len();
    let settings = plan.settings().len();
    Ok(format!(in alloc; "{keys} keys, {guards} guards, {settings} settings")?)
}

/// The plan of these clauses, or why there is none.
pub(crate) fn plan_of(alloc: Global, clauses: &str) -> anyhow::Result<Result<Plan, PlanFault>> {
    let mut locked = Row::new(alloc);
    let mut guards = Row::new(alloc);
    let mut settings = Row::new(alloc);
    for clause in clauses.split(" ; ") {
        match two(clause)? {
            ("lock", names) => locked = keys(alloc, names)?,
            ("guard", said) => guards = guards_of(alloc, said)?,
            (kind, said) => settings.push(setting(kind, said)?)?,
        }
    }
    Ok(Plan::new(alloc, locked, guards, settings))
}

/// `N KEY KEY ..`.
fn guards_of(alloc: Global, words: &str) -> anyhow::Result<Row<Guard>> {
    let (least, names) = two(words)?;
    let least = least.parse::<u64>()?;
    let mut guards = Row::new(alloc);
    for name in names.split(' ') {
        guards.push(Guard {
            key: key(name)?,
            least,
        })?;
    }
    Ok(guards)
}

/// `KEY N`.
fn setting(kind: &str, words: &str) -> anyhow::Result<Setting> {
    let (name, number) = two(words)?;
    Ok(Setting {
        key: key(name)?,
        how: how(kind, number.parse::<u64>()?)?,
    })
}

fn how(kind: &str, number: u64) -> anyhow::Result<How> {
    match kind {
        "set" => Ok(How::Put(number)),
        "plus" => Ok(How::Plus(number)),
        "minus" => Ok(How::Minus(number)),
        _ => bail!("no clause: {kind}"),
    }
}

pub(crate) fn locks(alloc: Global, clauses: &str) -> anyhow::Result<String> {
    let plan = plan_of(alloc, clauses)??;
    let locks = plan.locks()?;
    let modes = modes(alloc, locks.as_slice())?;
    let shards = participants(alloc, &Body::Prelim(locks))?;
    Ok(format!(in alloc; "{:?} {:?}", modes.as_slice(), shards.as_slice())?)
}

fn modes(alloc: Global, locks: &[Lock]) -> Result<Row<Mode>, NoMemory> {
    let mut modes = Row::new(alloc);
    for lock in locks {
        modes.push(lock.mode)?;
    }
    Ok(modes)
}

/// A plan, and the values of keys that stand before it.
pub(crate) fn values_and_plan(
    alloc: Global,
    words: &str,
) -> anyhow::Result<(Row<Option<u64>>, Plan)> {
    let (before, clauses) = words.split_once(": ").context("no values and plan")?;
    let mut values = Row::new(alloc);
    for word in before.split(' ') {
        values.push(value(word)?)?;
    }
    Ok((values, plan_of(alloc, clauses)??))
}

pub(crate) fn writes(alloc: Global, words: &str) -> anyhow::Result<String> {
    let (values, plan) = values_and_plan(alloc, words)?;
    match plan.writes(values.as_slice())? {
        Some(writes) => written(alloc, writes.as_slice()),
        None => Ok(format!(in alloc; "no writes")?),
    }
}

/// Each key with the value that it gets.
pub(crate) fn written(alloc: Global, writes: &[Write]) -> anyhow::Result<String> {
    let mut told = String::new(alloc);
    for write in writes {
        let key = shown(alloc, &write.key)?;
        let one = format!(in alloc; " {key}={}", write.value)?;
        told.push_str(one.as_str())?;
    }
    Ok(told)
}

pub(crate) fn shown(alloc: Global, key: &Key) -> anyhow::Result<String> {
    let name = str::from_utf8(key.name.bytes())?;
    Ok(format!(in alloc; "{}/{name}", key.shard.0)?)
}
