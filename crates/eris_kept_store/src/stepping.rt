//! A shard's store, on from one number to another.
ghost use Rattle.std.specs.Prelude.{◌≡◌, false, [], ◌∷◌, is_err, IfOk, OnOk};
ghost use Rattle.eris_locks.specs.LockTable.{run_state, step};
ghost use Rattle.eris_locks.specs.Shards.{cut, names_shard, on_shard};
ghost use Rattle.eris_rules.specs.ReplicaAnswers.{open_at, prompt_answer};
ghost use Rattle.eris_store.specs.Stores.{state_of};

use crate::logs::is_open;
use eris_base::{Dup, NoMemory, ShardId};
use eris_locks::Done;
use eris_log::Part;
use eris_store::LockStore;
use eris_txn::{Answer, Packet};
use std::alloc::Global;

/// Whether the packet's stamp names the shard.
pub(crate) fn is_named(shard: ShardId, packet: &Packet) -> bool
    ensures { result ≡ names_shard shard packet.now }
{
    packet.stamp.number_of(shard).is_some()
}

/// Steps the store with the packet, and gives the answer that isn't late.
#[tactic(auto, unfolding(eris_rules::specs::ReplicaAnswers::prompt_answer))]
pub(crate) fn step_answering(
    alloc: Global,
    store: &mut LockStore,
    packet: &Packet,
) -> Result<Option<Answer>, NoMemory>
    requires { store.old.spent ≡ false }
    ensures answer { IfOk result (λ answer. answer ≡ prompt_answer (step (state_of store.old) (cut store.old.shard packet.now)).dones) }
    ensures state { OnOk result (state_of store.new ≡ (step (state_of store.old) (cut store.old.shard packet.now)).state) }
    ensures shard { store.new.shard ≡ store.old.shard }
    ensures unspent { OnOk result (store.new.spent ≡ false) }
{
    let dones = store.step(packet)?;
    prompt_answer(alloc, dones.as_slice())
}

/// The answer that isn't late.
#[tactic(auto, unfolding(eris_rules::specs::ReplicaAnswers::prompt_answer))]
fn prompt_answer(alloc: Global, dones: &[Done]) -> Result<Option<Answer>, NoMemory>
    ensures { IfOk result (λ answer. answer ≡ prompt_answer dones.now) }
{
    match dones.iter().find(|done| !done.late) {
        Some(done) => Ok(Some(done.answer.copy(alloc)?)),
        None => Ok(None),
    }
}

/// Steps the shard's store with the packet, where it names the shard.
fn step_named(shard: ShardId, store: &mut LockStore, packet: &Packet) -> Result<(), NoMemory>
    requires unspent { store.old.spent ≡ false }
    requires shard { store.old.shard ≡ shard }
    ensures state { OnOk result (state_of store.new ≡ run_state (state_of store.old) (on_shard shard (packet.now ∷ []))) }
    ensures shard { store.new.shard ≡ shard }
    ensures unspent { OnOk result (store.new.spent ≡ false) }
{
    if is_named(shard, packet) {
        store.step(packet)?;
    }
    Ok(())
}

/// Steps the shard's store with the packet at the number, where its entry is open.
#[tactic(auto, unfolding(eris_rules::specs::ReplicaAnswers::open_at))]
pub(crate) fn step_open(
    shard: ShardId,
    store: &mut LockStore,
    part: &Part,
    number: u32,
) -> Result<(), NoMemory>
    requires unspent { store.old.spent ≡ false }
    requires shard { store.old.shard ≡ shard }
    ensures state { OnOk result (state_of store.new ≡ run_state (state_of store.old) (on_shard shard (open_at part.now number))) }
    ensures shard { store.new.shard ≡ shard }
    ensures unspent { OnOk result (store.new.spent ≡ false) }
{
    if is_open(part, number) {
        if let Some(packet) = part.held(number) {
            return step_named(shard, store, packet);
        }
    }
    Ok(())
}
