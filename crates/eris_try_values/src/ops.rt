use crate::keys::{key, two, value};
use anyhow::bail;
use eris_base::Row;
use eris_txn::{Body, Key, KeyValues, Op, apply_op};
use std::alloc::Global;

/// `VALUE KEY OP`.
pub(crate) fn applied(alloc: Global, words: &str) -> anyhow::Result<String> {
    let (before, rest) = two(words)?;
    let (name, said) = two(rest)?;
    let key = key(name)?;
    let op = op(&key, said)?;
    let (left, answer) = apply_op(value(before)?, &op);
    let same = op.key().is_same(&key);
    Ok(format!(in alloc; "{left:?} {answer:?} {same}")?)
}

/// The operation on this key.
fn op(key: &Key, words: &str) -> anyhow::Result<Op> {
    match words.split_once(' ') {
        None if words == "get" => Ok(Op::Get(*key)),
        None if words == "del" => Ok(Op::Del(*key)),
        Some(("put", value)) => Ok(Op::Put(*key, value.parse::<u64>()?)),
        Some(("add", more)) => Ok(Op::Add(*key, more.parse::<u64>()?)),
        Some(("cas", numbers)) => cas(key, numbers),
        _ => bail!("no operation: {words}"),
    }
}

fn cas(key: &Key, numbers: &str) -> anyhow::Result<Op> {
    let (expected, value) = two(numbers)?;
    Ok(Op::Cas(*key, expected.parse::<u64>()?, value.parse::<u64>()?))
}

/// `KEY OP`.
fn op_of(words: &str) -> anyhow::Result<Op> {
    let (name, said) = two(words)?;
    op(&key(name)?, said)
}

fn ops_of(alloc: Global, words: &str) -> anyhow::Result<Row<Op>> {
    let mut ops = Row::new(alloc);
    for one in words.split(" ; ") {
        ops.push(op_of(one)?)?;
    }
    Ok(ops)
}

pub(crate) fn values(alloc: Global, steps: &str) -> anyhow::Result<String> {
    let mut values = KeyValues::new(alloc);
    let mut told = String::new(alloc);
    for step in steps.split(", ") {
        let one = take(alloc, &mut values, step)?;
        if !told.is_empty() {
            told.push_str(", ")?;
        }
        told.push_str(one.as_str())?;
    }
    Ok(told)
}

/// What the step tells, or the step itself where it only changes a value.
fn take(alloc: Global, values: &mut KeyValues, step: &str) -> anyhow::Result<String> {
    match two(step)? {
        ("put", said) => {
            let (name, value) = two(said)?;
            values.put(key(name)?, value.parse::<u64>()?)?;
            Ok(format!(in alloc; "{step}")?)
        }
        ("remove", name) => {
            values.remove(&key(name)?);
            Ok(format!(in alloc; "{step}")?)
        }
        ("value", name) => Ok(format!(in alloc; "{:?}", values.value_of(&key(name)?))?),
        ("apply", said) => Ok(format!(in alloc; "{:?}", values.apply(&op_of(said)?)?)?),
        ("all", said) => all(alloc, values, said),
        _ => bail!("no step of values: {step}"),
    }
}

fn all(alloc: Global, values: &mut KeyValues, words: &str) -> anyhow::Result<String> {
    let ops = ops_of(alloc, words)?;
    let answers = values.apply_all(alloc, ops.as_slice())?;
    Ok(format!(in alloc; "{:?}", answers.as_slice())?)
}

/// So many reads of a key.
pub(crate) fn body(alloc: Global, count: &str) -> anyhow::Result<String> {
    let mut ops = Row::new(alloc);
    for _ in 0..count.parse::<u8>()? {
        ops.push(Op::Get(key("0/a")?))?;
    }
    let fault = Body::independent(ops).err();
    Ok(format!(in alloc; "{fault:?}")?)
}
