//! Whether the start of an epoch has a shard's log of the epochs before.
ghost use Rattle.std.specs.Prelude.{◌≡◌, ◌&&◌, map};
ghost use Rattle.eris_locks.specs.Shards.{names_shard, place_on};
ghost use Rattle.eris_log.specs.Places.{place_cmp};
ghost use Rattle.eris_log.specs.Sorted.{is_above};
ghost use Rattle.eris_rules.specs.InPlace.{all_name_shard, ascend_on, all_below, has_right_log};

use eris_base::{Epoch, Place, ShardId};
use eris_locks::place_on;
use eris_msg::Message;
use eris_txn::Packet;

/// Whether the log in the message, where it has one, is a log of its shard before its epoch.
pub fn has_right_log(message: &Message) -> bool
    ensures { result ≡ has_right_log message.now }
{
    match message {
        Message::StartEpoch {
            epoch,
            shard,
            packets,
        } => is_right_log(*epoch, *shard, packets.as_slice()),
        _ => true,
    }
}

/// Whether the packets all name the shard, strictly ascend by epoch and number on it, and are of epochs below
/// this one.
fn is_right_log(epoch: Epoch, shard: ShardId, packets: &[Packet]) -> bool
    ensures { result ≡ (all_name_shard shard packets.now
        && (ascend_on shard packets.now && all_below epoch packets.now)) }
{
    all_name_shard(shard, packets) && ascend_on(shard, packets) && all_below(epoch, packets)
}

#[tactic(auto, unfolding(eris_rules::specs::InPlace::all_name_shard))]
fn all_name_shard(shard: ShardId, packets: &[Packet]) -> bool
    ensures { result ≡ all_name_shard shard packets.now }
{
    packets.iter().all(|packet| names_shard(shard, packet))
}

fn names_shard(shard: ShardId, packet: &Packet) -> bool
    ensures { result ≡ names_shard shard packet.now }
{
    packet.stamp.number_of(shard).is_some()
}

#[tactic(auto, unfolding(eris_rules::specs::InPlace::ascend_on))]
fn ascend_on(shard: ShardId, packets: &[Packet]) -> bool
    ensures { result ≡ ascend_on shard packets.now }
{
    let mut before = None;
    let mut rest = packets;
    while let [packet, more @ ..] = rest {
        let place = place_on(shard, &packet.stamp);
        if !is_above(before, place) {
            return false;
        }
        before = Some(place);
        rest = more;
    }
    true
}

fn is_above(before: Option<Place>, place: Place) -> bool
    ensures { result ≡ is_above place_cmp before place }
{
    match before {
        Some(before) => before.cmp(&place).is_lt(),
        None => true,
    }
}

#[tactic(auto, unfolding(eris_rules::specs::InPlace::all_below))]
fn all_below(epoch: Epoch, packets: &[Packet]) -> bool
    ensures { result ≡ all_below epoch packets.now }
{
    packets.iter().all(|packet| packet.stamp.epoch.0 < epoch.0)
}
