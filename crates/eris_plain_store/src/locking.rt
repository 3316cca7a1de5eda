ghost use Rattle.std.specs.Prelude.{◌≡◌, ◌||◌, IfOk, map};
ghost use Rattle.std.specs.List.{list_any};
ghost use Rattle.eris_locks.specs.Locks.{clash, conflict, is_exclusive, lock_of, locks_of, mode_of};
ghost use Rattle.eris_locks.specs.States.{blocked};

use eris_base::{Dup, NoMemory, Row};
use eris_locks::{Held, ShardPacket};
use eris_txn::{Body, Lock, Mode, Op};
use std::alloc::Global;

/// The locks of a body: one for each operation, or a preliminary's own.
///
/// # Errors
///
/// [`NoMemory`] where an allocation was refused.
pub fn locks_of(alloc: Global, body: &Body) -> Result<Row<Lock>, NoMemory>
    ensures { IfOk result (λ locks. locks ≡ locks_of body.now) }
{
    match body {
        Body::Independent(ops) => lock_ops(alloc, ops.as_slice()),
        Body::Prelim(locks) => locks.copy(alloc),
        Body::Commit(_, _) => Ok(Row::new(alloc)),
        Body::Abort(_) => Ok(Row::new(alloc)),
    }
}

fn lock_ops(alloc: Global, ops: &[Op]) -> Result<Row<Lock>, NoMemory>
    ensures { IfOk result (λ locks. locks ≡ map lock_of ops.now) }
{
    let mut locks = Row::new(alloc);
    for op in ops {
        locks.push(Lock {
            key: *op.key(),
            mode: mode_of(op),
        })?;
    }
    Ok(locks)
}

fn mode_of(op: &Op) -> Mode
    ensures { result ≡ mode_of op.now }
{
    match op {
        Op::Get(_) => Mode::Shared,
        Op::Put(_, _) | Op::Del(_) | Op::Add(_, _) | Op::Cas(_, _, _) => Mode::Exclusive,
    }
}

/// Whether a lock of this mode keeps all others from its key. It takes no memory.
pub fn is_exclusive(mode: Mode) -> bool
    ensures { result ≡ is_exclusive mode }
{
    match mode {
        Mode::Shared => false,
        Mode::Exclusive => true,
    }
}

/// Whether the two locks are of one key, and one of them is exclusive.
fn is_clash(some: &Lock, other: &Lock) -> bool
    ensures { result ≡ clash some.now other.now }
{
    some.key.is_same(&other.key) && (is_exclusive(some.mode) || is_exclusive(other.mode))
}

fn clashes(lock: &Lock, others: &[Lock]) -> bool
    ensures { result ≡ list_any (clash lock.now) others.now }
{
    others.iter().any(|other| is_clash(lock, other))
}

/// Whether some lock of the one list clashes with some lock of the other.
#[tactic(auto, unfolding(eris_locks::specs::Locks::conflict))]
fn is_conflict(some: &[Lock], others: &[Lock]) -> bool
    ensures { result ≡ conflict some.now others.now }
{
    some.iter().any(|lock| clashes(lock, others))
}

fn is_held(holding: &[Held], locks: &[Lock]) -> bool
    ensures { result ≡ list_any (λ held. conflict held.locks locks.now) holding.now }
{
    holding
        .iter()
        .any(|held| is_conflict(held.locks.as_slice(), locks))
}

/// Whether the locks conflict with those of a packet.
fn conflicts_with(alloc: Global, packet: &ShardPacket, locks: &[Lock]) -> Result<bool, NoMemory>
    ensures { IfOk result (λ found. found ≡ conflict (locks_of packet.now.body) locks.now) }
{
    let own = locks_of(alloc, &packet.body)?;
    Ok(is_conflict(own.as_slice(), locks))
}

fn is_before(alloc: Global, before: &[ShardPacket], locks: &[Lock]) -> Result<bool, NoMemory>
    ensures { IfOk result (λ found. found ≡ list_any (λ packet. conflict (locks_of packet.body) locks.now) before.now) }
{
    for packet in before {
        if conflicts_with(alloc, packet, locks)? {
            return Ok(true);
        }
    }
    Ok(false)
}

/// Whether a packet of this body conflicts with a holding preliminary, or with a packet that waits before it.
///
/// # Errors
///
/// [`NoMemory`] where an allocation was refused.
pub fn is_blocked(
    alloc: Global,
    holding: &[Held],
    before: &[ShardPacket],
    body: &Body,
) -> Result<bool, NoMemory>
    ensures { IfOk result (λ found. found ≡ blocked holding.now before.now (locks_of body.now)) }
{
    let locks = locks_of(alloc, body)?;
    if is_held(holding, locks.as_slice()) {
        return Ok(true);
    }
    is_before(alloc, before, locks.as_slice())
}
