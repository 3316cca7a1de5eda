//! How far a transaction is: the body of its present half, its phase, and the shards of its items.
ghost use Rattle.std.specs.Prelude.{◌≡◌, [], ◌++◌, map, IfOk};
ghost use Rattle.std.specs.Option.{option_copied};
ghost use Rattle.eris_txn.specs.Bodies.{keys_of};
ghost use Rattle.eris_txn.specs.Operations.{key_of};
ghost use Rattle.eris_locks.specs.States.{phase_of};
ghost use Rattle.eris_rules.specs.ClientStates.{begun_half, body_of, course_of, plan_of};
ghost use Rattle.eris_rules.specs.Clients.{item_shards};

use eris_base::{Dup, NoMemory, Phase, Row, ShardId};
use eris_locks::phase_of;
use eris_rules::{Course, Transaction};
use eris_txn::{Body, Key, Lock, Op, Plan, Txn};
use std::alloc::Global;

/// How a transaction begins.
pub fn course_of(txn: Txn) -> Course
    ensures { result ≡ course_of txn }
{
    match txn {
        Txn::Whole(ops) => Course::Executing(ops),
        Txn::General(plan) => Course::Reading(plan),
    }
}

/// A half that begins.
#[tactic(auto, unfolding(eris_rules::specs::ClientStates::begun_half))]
pub fn begun(alloc: Global, course: Course) -> Transaction
    ensures { result ≡ begun_half course }
{
    Transaction {
        course,
        votes: Row::new(alloc),
        counted: Row::new(alloc),
        finished: false,
    }
}

/// The plan of a general transaction of its own.
pub fn plan_of(course: &Course) -> Option<&Plan>
    ensures { option_copied result ≡ plan_of course.now }
{
    match course {
        Course::Reading(plan) | Course::Concluding(plan, _) => Some(plan),
        Course::Executing(_) | Course::Aborting(_) => None,
    }
}

/// The body of the present half.
pub fn body_of(alloc: Global, course: &Course) -> Result<Body, NoMemory>
    ensures { IfOk result (λ body. body ≡ body_of course.now) }
{
    match course {
        Course::Executing(ops) => Ok(Body::Independent(ops.copy(alloc)?)),
        Course::Reading(plan) => Ok(Body::Prelim(plan.locks()?)),
        Course::Concluding(_, body) => body.copy(alloc),
        Course::Aborting(keys) => Ok(Body::Abort(keys.copy(alloc)?)),
    }
}

/// The phase of the present half.
pub fn course_phase(course: &Course) -> Phase
    ensures { result ≡ phase_of (body_of course.now) }
{
    match course {
        Course::Executing(_) => Phase::Whole,
        Course::Reading(_) => Phase::Prelim,
        Course::Concluding(_, body) => phase_of(body),
        Course::Aborting(_) => Phase::Conclude,
    }
}

/// The shards of the operations, locks or keys of the present half, in their order.
#[tactic(auto, using(crate::proofs::ItemShards::shards_of_plan))]
pub fn item_shards(alloc: Global, course: &Course) -> Result<Row<ShardId>, NoMemory>
    ensures { IfOk result (λ shards. shards ≡ item_shards (body_of course.now)) }
{
    match course {
        Course::Executing(ops) => shards_of_ops(alloc, ops.as_slice()),
        Course::Reading(plan) => shards_of_keys(alloc, plan.keys()),
        Course::Concluding(_, body) => shards_of_body(alloc, body),
        Course::Aborting(keys) => shards_of_keys(alloc, keys.as_slice()),
    }
}

fn shards_of_body(alloc: Global, body: &Body) -> Result<Row<ShardId>, NoMemory>
    ensures { IfOk result (λ shards. shards ≡ item_shards body.now) }
{
    match body {
        Body::Independent(ops) => shards_of_ops(alloc, ops.as_slice()),
        Body::Prelim(locks) => shards_of_locks(alloc, locks.as_slice()),
        Body::Commit(keys, _) => shards_of_keys(alloc, keys.as_slice()),
        Body::Abort(keys) => shards_of_keys(alloc, keys.as_slice()),
    }
}

fn shards_of_ops(alloc: Global, ops: &[Op]) -> Result<Row<ShardId>, NoMemory>
    ensures { IfOk result (λ shards. shards ≡ map (λ key. key.shard) (map key_of ops.now)) }
{
    let mut shards = Row::new(alloc);
    for op in ops {
        shards.push(op.key().shard)?;
    }
    Ok(shards)
}

fn shards_of_locks(alloc: Global, locks: &[Lock]) -> Result<Row<ShardId>, NoMemory>
    ensures { IfOk result (λ shards. shards ≡ map (λ key. key.shard) (map (λ lock. lock.key) locks.now)) }
{
    let mut shards = Row::new(alloc);
    for lock in locks {
        shards.push(lock.key.shard)?;
    }
    Ok(shards)
}

fn shards_of_keys(alloc: Global, keys: &[Key]) -> Result<Row<ShardId>, NoMemory>
    ensures { IfOk result (λ shards. shards ≡ map (λ key. key.shard) keys.now) }
{
    let mut shards = Row::new(alloc);
    for key in keys {
        shards.push(key.shard)?;
    }
    Ok(shards)
}
