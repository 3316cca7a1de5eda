//! Counters by shard, and their next numbers.
ghost use Rattle.std.specs.Prelude.{◌≡◌, IsTrue, IsFalse, IfOk, IfErr, OnOk, slice_set, nat_lt, length, None};
ghost use Rattle.eris_base.specs.Places.{are_stamp_places};
ghost use Rattle.eris_txn.specs.Bodies.{ascends_from};
ghost use Rattle.eris_sequencer.specs.Stamps.{counter_of, next_places, with_numbers, is_full, has_counters};

use crate::stamp_fault::StampFault;
use eris_base::{Epoch, Row, ShardId, Stamp};
use std::alloc::Global;

/// How many packets were stamped for the shard; none for a shard that isn't there.
#[tactic(auto, unfolding(crate::specs::Stamps::counter_of))]
pub fn counter_of(counters: &[u32], shard: ShardId) -> u32
    ensures { result ≡ counter_of counters.now shard }
{
    let at = shard.0 as usize;
    if at < counters.len() { counters[at] } else { 0 }
}

/// The stamp that gives each of the ascending shards its next number. `Full` exactly where the counter of one
/// stands at its end.
#[tactic(auto, using(crate::proofs::StampLaws::next_stamp_laws))]
pub fn next_stamp(
    alloc: Global,
    epoch: Epoch,
    counters: &[u32],
    shards: &[ShardId],
) -> Result<Stamp, StampFault>
    requires some { IsTrue (nat_lt 0 (length shards.now)) }
    requires ascend { IsTrue (ascends_from None shards.now) }
    ensures ok { IfOk result (λ stamp. stamp ≡ record { epoch = epoch; places = next_places counters.now shards.now }) }
    ensures free { OnOk result (IsFalse (is_full counters.now shards.now)) }
    ensures full { IfErr result (λ fault. fault ≡ StampFault.Full → IsTrue (is_full counters.now shards.now)) }
{
    let places = next_places(alloc, counters, shards)?;
    Ok(Stamp { epoch, places })
}

/// The next number of each shard. `Full` exactly where the counter of one stands at its end.
#[tactic(auto, unfolding(crate::specs::Stamps::next_places, crate::specs::Stamps::is_full))]
fn next_places(
    alloc: Global,
    counters: &[u32],
    shards: &[ShardId],
) -> Result<Row<(ShardId, u32)>, StampFault>
    ensures ok { IfOk result (λ places. places ≡ next_places counters.now shards.now) }
    ensures free { OnOk result (IsFalse (is_full counters.now shards.now)) }
    ensures full { IfErr result (λ fault. fault ≡ StampFault.Full → IsTrue (is_full counters.now shards.now)) }
{
    let mut places = Row::new(alloc);
    for shard in shards {
        let counter = counter_of(counters, *shard);
        if counter == u32::MAX {
            return Err(StampFault::Full);
        }
        places.push((*shard, counter + 1))?;
    }
    Ok(places)
}

/// Sets the counters of the named shards to these numbers.
#[tactic(auto, unfolding(crate::specs::Stamps::with_numbers))]
pub fn set_all(counters: &mut [u32], places: &[(ShardId, u32)])
    ensures { counters.new ≡ with_numbers counters.old places.now }
{
    for place in places {
        set_at(counters, place.0.0 as usize, place.1);
    }
}

fn set_at(counters: &mut [u32], at: usize, number: u32)
    ensures { counters.new ≡ slice_set counters.old at number }
{
    if at < counters.len() {
        counters[at] = number;
    }
}
