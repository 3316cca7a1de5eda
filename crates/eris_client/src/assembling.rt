//! An answer over many shards, of what the counted ones answered.
ghost use Rattle.std.specs.Prelude.{◌≡◌, ◌++◌, slice_get, map, IfOk, OnOk};
ghost use Rattle.std.specs.List.{list_any};
ghost use Rattle.std.specs.Option.{option_copied, option_to_list};
ghost use Rattle.eris_general.specs.Outcomes.{is_aborted, outcome_of};
ghost use Rattle.eris_rules.specs.Assembling.{assemble};
ghost use Rattle.eris_rules.specs.Clients.{answer_of_shard, op_answers_in, values_in};

use crate::shards::count_of;
use eris_base::{Dup, NoMemory, Row, ShardId};
use eris_general::is_aborted;
use eris_txn::{Answer, OpAnswer};
use std::alloc::Global;

/// The answers of all operations, in their order. It needs the shards of the operations.
pub fn all_op_answers(
    alloc: Global,
    shards: &[ShardId],
    counted: &[(ShardId, Answer)],
) -> Result<Row<OpAnswer>, NoMemory>
    ensures { IfOk result (λ made. made ≡ assemble shards.now (λ shard. op_answers_in (answer_of_shard counted.now shard))) }
{
    let mut made = Row::new(alloc);
    for (at, shard) in shards.iter().enumerate() {
        let next = count_of(&shards[..at], *shard);
        add_found(&mut made, op_answer_at(counted, *shard, next))?;
    }
    Ok(made)
}

/// The values of all locked keys, in their order. It needs the shards of the keys.
pub fn all_values(
    alloc: Global,
    shards: &[ShardId],
    counted: &[(ShardId, Answer)],
) -> Result<Row<Option<u64>>, NoMemory>
    ensures { IfOk result (λ made. made ≡ assemble shards.now (λ shard. values_in (answer_of_shard counted.now shard))) }
{
    let mut made = Row::new(alloc);
    for (at, shard) in shards.iter().enumerate() {
        let next = count_of(&shards[..at], *shard);
        add_found(&mut made, value_at(counted, *shard, next))?;
    }
    Ok(made)
}

/// Adds the item, if there is one.
fn add_found<T: Drop>(made: &mut Row<T>, found: Option<T>) -> Result<(), NoMemory>
    ensures { OnOk result (made.new ≡ made.old ++ option_to_list found) }
{
    match found {
        Some(item) => made.push(item),
        None => Ok(()),
    }
}

fn op_answer_at(counted: &[(ShardId, Answer)], shard: ShardId, at: usize) -> Option<OpAnswer>
    ensures { result ≡ slice_get (op_answers_in (answer_of_shard counted.now shard)) at }
{
    match answer_of(counted, shard) {
        Some(Answer::Ops(answers)) => answers.as_slice().get(at).copied(),
        _ => None,
    }
}

fn value_at(counted: &[(ShardId, Answer)], shard: ShardId, at: usize) -> Option<Option<u64>>
    ensures { result ≡ slice_get (values_in (answer_of_shard counted.now shard)) at }
{
    match answer_of(counted, shard) {
        Some(Answer::Values(values)) => values.as_slice().get(at).copied(),
        _ => None,
    }
}

fn answer_of(counted: &[(ShardId, Answer)], shard: ShardId) -> Option<&Answer>
    ensures { option_copied result ≡ answer_of_shard counted.now shard }
{
    counted
        .iter()
        .find(|pair| pair.0 == shard)
        .map(|pair| &pair.1)
}

/// The answers of the counted shards.
pub fn all_answers(alloc: Global, counted: &[(ShardId, Answer)]) -> Result<Row<Answer>, NoMemory>
    ensures { IfOk result (λ answers. answers ≡ map (λ pair. pair.1) counted.now) }
{
    let mut answers = Row::new(alloc);
    for pair in counted {
        answers.push(pair.1.copy(alloc)?)?;
    }
    Ok(answers)
}

/// Whether some shard aborted.
pub fn some_aborted(counted: &[(ShardId, Answer)]) -> bool
    ensures { result ≡ list_any is_aborted (map (λ pair. pair.1) counted.now) }
{
    any_aborted(counted)
}

fn any_aborted(counted: &[(ShardId, Answer)]) -> bool
    ensures { result ≡ list_any (λ pair. is_aborted pair.1) counted.now }
{
    counted.iter().any(|pair| is_aborted(&pair.1))
}

/// The outcome by the counted shards: aborted exactly where one of them aborted.
pub fn outcome_of(counted: &[(ShardId, Answer)]) -> Answer
    ensures { result ≡ outcome_of (map (λ pair. pair.1) counted.now) }
{
    if some_aborted(counted) {
        Answer::Aborted
    } else {
        Answer::Committed
    }
}
