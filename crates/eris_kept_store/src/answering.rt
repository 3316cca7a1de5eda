//! What a shard's store answers a packet at its own place.
ghost use Rattle.std.specs.Prelude.{◌≡◌, ◌-◌, ◌≤◌, true, Some, IfOk};
ghost use Rattle.eris_log.specs.Held.{packet_at};
ghost use Rattle.eris_rules.specs.ReplicaAnswers.{log_upto, answer_after};
ghost use Rattle.eris_kept_store.specs.KeptStores.{IsAfter, IfKept, is_kept_below, number_of, is_next};

use crate::kept_store::{KeptStore, begun, is_below, kept_if};
use crate::logs::is_open;
use crate::stepping::{is_named, step_answering, step_open};
use eris_base::{NoMemory, Row, ShardId};
use eris_log::Part;
use eris_store::LockStore;
use eris_txn::{Answer, Packet};
use std::alloc::Global;

/// What the shard's store, after the log before the number, answers the packet that is held there. None
/// where the packet waits there.
///
/// Where the number is above that of what is kept, what is kept goes on to the number and is kept there;
/// else a new store goes there from the start, and what is kept stays.
///
/// # Errors
///
/// [`NoMemory`] where an allocation was refused. Nothing may be kept then.
pub fn answer_at(
    alloc: Global,
    shard: ShardId,
    prior: &Row<Packet>,
    part: &Part,
    number: u32,
    packet: &Packet,
    kept: &mut Option<KeptStore>,
) -> Result<Option<Answer>, NoMemory>
    requires kept { IfKept shard prior.now part.now kept.old }
    requires held { packet_at part.now.held number ≡ Some packet.now }
    ensures answer { IfOk result (λ answer. answer ≡ answer_after shard (log_upto prior.now part.now (number - 1)) packet.now) }
    ensures kept { IfKept shard prior.now part.now kept.new }
{
    if is_below(kept, number) {
        return answer_on(alloc, shard, prior, part, number, packet, kept);
    }
    answer_anew(alloc, shard, prior, part, number, packet)
}

/// The answer by a store that goes there from the start.
#[tactic(auto, unfolding(eris_rules::specs::ReplicaAnswers::answer_after))]
fn answer_anew(
    alloc: Global,
    shard: ShardId,
    prior: &Row<Packet>,
    part: &Part,
    number: u32,
    packet: &Packet,
) -> Result<Option<Answer>, NoMemory>
    ensures { IfOk result (λ answer. answer ≡ answer_after shard (log_upto prior.now part.now (number - 1)) packet.now) }
{
    let before = number.saturating_sub(1);
    let mut store = store_upto(alloc, shard, prior, part, before, None)?;
    step_answering(alloc, &mut store, packet)
}

/// The answer by what is kept, which goes on to the number.
#[tactic(auto, unfolding(eris_rules::specs::ReplicaAnswers::answer_after))]
fn answer_on(
    alloc: Global,
    shard: ShardId,
    prior: &Row<Packet>,
    part: &Part,
    number: u32,
    packet: &Packet,
    kept: &mut Option<KeptStore>,
) -> Result<Option<Answer>, NoMemory>
    requires kept { IfKept shard prior.now part.now kept.old }
    requires held { packet_at part.now.held number ≡ Some packet.now }
    requires below { is_kept_below kept.old number ≡ true }
    ensures answer { IfOk result (λ answer. answer ≡ answer_after shard (log_upto prior.now part.now (number - 1)) packet.now) }
    ensures kept { IfKept shard prior.now part.now kept.new }
{
    let before = number.saturating_sub(1);
    let mut store = store_upto(alloc, shard, prior, part, before, kept.take())?;
    let answer = step_answering(alloc, &mut store, packet)?;
    *kept = kept_if(is_next(shard, part, number, packet), store, number);
    Ok(answer)
}

/// Whether the packet at the number is in the shard's log.
fn is_next(shard: ShardId, part: &Part, number: u32, packet: &Packet) -> bool
    ensures { result ≡ is_next shard part.now number packet.now }
{
    0 < number && is_open(part, number) && is_named(shard, packet)
}

/// The shard's store after the log up to the number, from what is kept.
fn store_upto(
    alloc: Global,
    shard: ShardId,
    prior: &Row<Packet>,
    part: &Part,
    number: u32,
    kept: Option<KeptStore>,
) -> Result<LockStore, NoMemory>
    requires kept { IfKept shard prior.now part.now kept }
    requires upto { number_of kept ≤ number }
    ensures { IfOk result (λ store. IsAfter shard (log_upto prior.now part.now number) store) }
{
    let begun = begun(alloc, shard, prior, kept)?;
    let from = begun.number;
    let mut store = begun.store;
    for before in from..number {
        step_open(shard, &mut store, part, before + 1)?;
    }
    Ok(store)
}
