//! Answers to packets that had waited.
ghost use Rattle.std.specs.Prelude.{◌≡◌, IfOk, filter, map};
ghost use Rattle.eris_rules.specs.ReplicaAnswers.{is_late_above, late_answers, store_answers};
ghost use Rattle.eris_member.specs.LateSends.{late_out};

use eris_base::{Epoch, NoMemory, Node, ReplicaId, Row, ShardId};
use eris_locks::Done;
use eris_msg::{Message, Outgoing};
use eris_store::LockStore;
use eris_txn::Packet;
use std::alloc::Global;

/// The answers to packets that had waited which the shard's store gives over the log at places of the epoch
/// with numbers above this one, by place and then in the store's order.
#[tactic(auto, unfolding(eris_rules::specs::ReplicaAnswers::late_answers))]
pub(crate) fn late_answers(
    alloc: Global,
    shard: ShardId,
    epoch: Epoch,
    log: &[Packet],
    number: u32,
) -> Result<Row<Done>, NoMemory>
    ensures { IfOk result (λ dones. dones ≡ late_answers shard epoch log.now number) }
{
    let mut dones = store_answers(alloc, shard, log)?.into_vec();
    keep_late(&mut dones, epoch, number);
    Ok(Row::from_vec(dones))
}

/// All that the shard's store answers over the log, in order.
#[tactic(auto, unfolding(eris_rules::specs::ReplicaAnswers::store_answers))]
fn store_answers(alloc: Global, shard: ShardId, log: &[Packet]) -> Result<Row<Done>, NoMemory>
    ensures { IfOk result (λ dones. dones ≡ store_answers shard log.now) }
{
    LockStore::new(alloc, shard).step_all(log)
}

fn keep_late(dones: &mut Vec<Done>, epoch: Epoch, number: u32)
    ensures { dones.new.items ≡ filter (is_late_above epoch number) dones.old.items }
{
    dones.retain(|done| is_late_above(done, epoch, number));
}

#[tactic(auto, unfolding(eris_rules::specs::ReplicaAnswers::is_late_above))]
fn is_late_above(done: &Done, epoch: Epoch, number: u32) -> bool
    ensures { result ≡ is_late_above epoch number done.now }
{
    done.late && done.at.epoch == epoch && number < done.at.number
}

/// Each of the answers to its asker, as a late one of this replica.
pub(crate) fn late_sends(
    alloc: Global,
    shard: ShardId,
    replica: ReplicaId,
    dones: Row<Done>,
) -> Result<Row<Outgoing>, NoMemory>
    ensures { IfOk result (λ sends. sends ≡ map (late_out shard replica) dones) }
{
    let mut sends = Row::new(alloc);
    for done in dones.into_vec() {
        sends.push(late_out(shard, replica, done))?;
    }
    Ok(sends)
}

fn late_out(shard: ShardId, replica: ReplicaId, done: Done) -> Outgoing
    ensures { result ≡ late_out shard replica done }
{
    Outgoing {
        to: Node::Client(done.asker),
        message: Message::Late {
            shard,
            replica,
            id: done.id,
            phase: done.phase,
            answer: done.answer,
        },
    }
}
