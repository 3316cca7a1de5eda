//! Whether stamps name exactly the participants of their packets' bodies.
ghost use Rattle.std.specs.Prelude.{◌≡◌, ◌==◌, map, is_some};
ghost use Rattle.std.specs.List.{list_all, list_any};
ghost use Rattle.eris_base.specs.Places.{number_in};
ghost use Rattle.eris_txn.specs.Bodies.{any_on, shards_of};
ghost use Rattle.eris_rules.specs.InPlace.{names_exactly, names_participants, all_name_participants, packets_in};

use eris_base::{ShardId, Stamp};
use eris_msg::Message;
use eris_txn::{Body, OfKey, Packet};

/// Whether the stamp of each packet in the message names exactly the participants of the packet's body.
#[tactic(auto, unfolding(eris_rules::specs::InPlace::all_name_participants))]
pub fn name_participants(message: &Message) -> bool
    ensures { result ≡ all_name_participants (packets_in message.now) }
{
    match message {
        Message::Txn { packet } | Message::Has { packet } | Message::Found { packet } =>
            names_participants(packet),
        Message::ViewChange { part, .. } | Message::EpochState { part, .. } =>
            all_held_name_participants(part.held_list()),
        Message::StartView { part, .. } => all_held_name_participants(part.held_list()),
        Message::StartEpoch { packets, .. } => all_name_participants(packets.as_slice()),
        _ => true,
    }
}

#[tactic(auto, unfolding(eris_rules::specs::InPlace::all_name_participants))]
fn all_name_participants(packets: &[Packet]) -> bool
    ensures { result ≡ all_name_participants packets.now }
{
    packets.iter().all(|packet| names_participants(packet))
}

fn all_held_name_participants(held: &[(u32, Packet)]) -> bool
    ensures { result ≡ all_name_participants (map (λ pair. pair.1) held.now) }
{
    each_held_names_participants(held)
}

fn each_held_names_participants(held: &[(u32, Packet)]) -> bool
    ensures { result ≡ list_all (λ pair. names_participants pair.1) held.now }
{
    held.iter().all(|pair| names_participants(&pair.1))
}

fn names_participants(packet: &Packet) -> bool
    ensures { result ≡ names_participants packet.now }
{
    match &packet.body {
        Body::Independent(ops) => names_exactly(&packet.stamp, ops.as_slice()),
        Body::Prelim(locks) => names_exactly(&packet.stamp, locks.as_slice()),
        Body::Commit(keys, _) => names_exactly(&packet.stamp, keys.as_slice()),
        Body::Abort(keys) => names_exactly(&packet.stamp, keys.as_slice()),
    }
}

/// Whether the stamp names exactly the shards of these keys. Both are known to ascend, so it is enough that
/// each shard of the one stands in the other.
#[tactic(auto, using(crate::proofs::ExactShards::exactly))]
fn names_exactly<T: OfKey>(stamp: &Stamp, items: &[T]) -> bool
    ensures { result ≡ names_exactly stamp.now (shards_of (map T.key_in items.now)) }
{
    have_keys(stamp.places(), items) && are_named(stamp, items)
}

/// Whether each shard of the stamp has a key.
fn have_keys<T: OfKey>(places: &[(ShardId, u32)], items: &[T]) -> bool
    ensures { result ≡ list_all (λ place. any_on (map T.key_in items.now) place.0) places.now }
{
    places.iter().all(|place| has_key(items, place.0))
}

fn has_key<T: OfKey>(items: &[T], shard: ShardId) -> bool
    ensures { result ≡ any_on (map T.key_in items.now) shard }
{
    any_is_on(items, shard)
}

fn any_is_on<T: OfKey>(items: &[T], shard: ShardId) -> bool
    ensures { result ≡ list_any (λ item. (T.key_in item).shard.0 == shard.0) items.now }
{
    items.iter().any(|item| item.shard() == shard)
}

/// Whether each key is of a shard of the stamp.
fn are_named<T: OfKey>(stamp: &Stamp, items: &[T]) -> bool
    ensures { result ≡ list_all (λ key. is_some (number_in stamp.now.places key.shard)) (map T.key_in items.now) }
{
    each_is_named(stamp, items)
}

fn each_is_named<T: OfKey>(stamp: &Stamp, items: &[T]) -> bool
    ensures { result ≡ list_all (λ item. is_some (number_in stamp.now.places (T.key_in item).shard)) items.now }
{
    items.iter().all(|item| is_named(stamp, item.shard()))
}

fn is_named(stamp: &Stamp, shard: ShardId) -> bool
    ensures { result ≡ is_some (number_in stamp.now.places shard) }
{
    stamp.number_of(shard).is_some()
}
