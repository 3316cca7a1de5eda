ghost use Rattle.std.specs.Prelude.{◌≡◌, length};

use crate::plans::{plan_of, shown, values_and_plan, written};
use anyhow::{bail, ensure};
use eris_base::{NoMemory, Row};
use eris_general::Pending;
use eris_txn::{Answer, Body, Key, OpAnswer, Plan, Write};
use std::alloc::Global;

pub(crate) fn second(alloc: Global, words: &str) -> anyhow::Result<String> {
    let (values, plan) = values_and_plan(alloc, words)?;
    ensure!(
        values.len() == plan.keys().len(),
        "not as many values as keys"
    );
    let body = second_half(alloc, plan, values.as_slice())?;
    match &body {
        Body::Commit(keys, writes) => commit(alloc, keys.as_slice(), writes.as_slice()),
        Body::Abort(keys) => Ok(format!(in alloc; "abort{}", freed(alloc, keys.as_slice())?)?),
        _ => bail!("no second half"),
    }
}

fn second_half(alloc: Global, plan: Plan, values: &[Option<u64>]) -> Result<Body, NoMemory>
    requires { length values.now ≡ length plan.keys }
{
    let mut pending = Pending::new(alloc, plan);
    pending.on_prelim(values)
}

fn commit(alloc: Global, keys: &[Key], writes: &[Write]) -> anyhow::Result<String> {
    let keys = freed(alloc, keys)?;
    let writes = written(alloc, writes)?;
    Ok(format!(in alloc; "commit{keys} :{writes}")?)
}

fn freed(alloc: Global, keys: &[Key]) -> anyhow::Result<String> {
    let mut told = String::new(alloc);
    for key in keys {
        told.push_str(" ")?;
        told.push_str(shown(alloc, key)?.as_str())?;
    }
    Ok(told)
}

pub(crate) fn outcome(alloc: Global, words: &str) -> anyhow::Result<String> {
    let mut answers = Row::new(alloc);
    for word in words.split_whitespace() {
        answers.push(answer(alloc, word)?)?;
    }
    let mut pending = Pending::new(alloc, plan_of(alloc, "lock 0/a")??);
    Ok(format!(in alloc; "{:?}", pending.on_outcome(answers.as_slice()))?)
}

fn answer(alloc: Global, word: &str) -> anyhow::Result<Answer> {
    match word {
        "committed" => Ok(Answer::Committed),
        "aborted" => Ok(Answer::Aborted),
        "absent" => {
            let mut answers = Row::new(alloc);
            answers.push(OpAnswer::Absent)?;
            Ok(Answer::Ops(answers))
        }
        _ => bail!("no answer: {word}"),
    }
}
