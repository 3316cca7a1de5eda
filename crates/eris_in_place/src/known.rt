//! Whether all that a message names is of the config.
ghost use Rattle.std.specs.Prelude.{◌≡◌, ◌&&◌, map};
ghost use Rattle.std.specs.List.{list_all};
ghost use Rattle.eris_rules.specs.Known.{knows_shard, knows_replica, knows_client, knows_id, knows_pairs, knows_stamp, knows_places, knows_keys, knows_writes, knows_body, knows_packet, knows_packets, knows_held, knows_part, knows_all};

use eris_base::{ClientId, Config, Place, ReplicaId, ShardId, Stamp, TxnId};
use eris_log::Part;
use eris_msg::Message;
use eris_txn::{Body, OfKey, Packet, Write};

/// Whether each shard, replica and client that the message names is of the config.
#[tactic(auto, unfolding(eris_rules::specs::Known::knows_all))]
pub fn knows_all(config: &Config, message: &Message) -> bool
    ensures { result ≡ knows_all config.now message.now }
{
    match message {
        Message::Ask { asker, id, body } => knows_client(config, *asker)
            && knows_id(config, *id)
            && knows_body(config, body),
        Message::Txn { packet } | Message::Has { packet } | Message::Found { packet } =>
            knows_packet(config, packet),
        Message::Vouch {
            shard,
            replica,
            stamp,
            id,
            ..
        }
        | Message::Reply {
            shard,
            replica,
            stamp,
            id,
            ..
        } => knows_voter(config, *shard, *replica, stamp, *id),
        Message::Late {
            shard,
            replica,
            id,
            ..
        } => knows_shard(config, *shard)
            && knows_replica(config, *replica)
            && knows_id(config, *id),
        Message::Find { replica, place } => knows_replica(config, *replica)
            && knows_shard(config, place.shard),
        Message::Request { place } | Message::Dropped { place } => knows_shard(config, place.shard),
        Message::TempDropped {
            place,
            shard,
            replica,
            ..
        } => knows_shard(config, place.shard)
            && knows_shard(config, *shard)
            && knows_replica(config, *replica),
        Message::ViewChange { replica, part, .. } | Message::EpochState { replica, part, .. } =>
            knows_replica(config, *replica) && knows_part(config, part),
        Message::StartView { part, .. } => knows_part(config, part),
        Message::SyncAsk { .. } | Message::EpochAsk { .. } => true,
        Message::Ack { replica, .. } => knows_replica(config, *replica),
        Message::Settled { places, .. } => knows_pairs(config, places.as_slice()),
        Message::NewEpoch { shard, replica, .. } => knows_shard(config, *shard)
            && knows_replica(config, *replica),
        Message::StartEpoch { shard, packets, .. } => knows_shard(config, *shard)
            && knows_packets(config, packets.as_slice()),
    }
}

fn knows_voter(
    config: &Config,
    shard: ShardId,
    replica: ReplicaId,
    stamp: &Stamp,
    id: TxnId,
) -> bool
    ensures { result ≡ (knows_shard config.now shard && (knows_replica config.now replica
        && (knows_stamp config.now stamp.now && knows_id config.now id))) }
{
    knows_shard(config, shard)
        && knows_replica(config, replica)
        && knows_stamp(config, stamp)
        && knows_id(config, id)
}

fn knows_shard(config: &Config, shard: ShardId) -> bool
    ensures { result ≡ knows_shard config.now shard }
{
    shard.0 < config.shards()
}

fn knows_replica(config: &Config, replica: ReplicaId) -> bool
    ensures { result ≡ knows_replica config.now replica }
{
    (replica.0 as u32) < 2 * config.f() as u32 + 1
}

fn knows_client(config: &Config, client: ClientId) -> bool
    ensures { result ≡ knows_client config.now client }
{
    client.0 < config.clients()
}

fn knows_id(config: &Config, id: TxnId) -> bool
    ensures { result ≡ knows_id config.now id }
{
    knows_client(config, id.client)
}

#[tactic(auto, unfolding(eris_rules::specs::Known::knows_pairs))]
fn knows_pairs(config: &Config, pairs: &[(ShardId, u32)]) -> bool
    ensures { result ≡ knows_pairs config.now pairs.now }
{
    pairs.iter().all(|pair| knows_shard(config, pair.0))
}

fn knows_stamp(config: &Config, stamp: &Stamp) -> bool
    ensures { result ≡ knows_stamp config.now stamp.now }
{
    knows_pairs(config, stamp.places())
}

#[tactic(auto, unfolding(eris_rules::specs::Known::knows_places))]
fn knows_places(config: &Config, places: &[Place]) -> bool
    ensures { result ≡ knows_places config.now places.now }
{
    places.iter().all(|place| knows_shard(config, place.shard))
}

fn knows_keys<T: OfKey>(config: &Config, items: &[T]) -> bool
    ensures { result ≡ knows_keys config.now (map T.key_in items.now) }
{
    are_known(config, items)
}

fn are_known<T: OfKey>(config: &Config, items: &[T]) -> bool
    ensures { result ≡ list_all (λ item. knows_shard config.now (T.key_in item).shard) items.now }
{
    items.iter().all(|item| knows_shard(config, item.shard()))
}

#[tactic(auto, unfolding(eris_rules::specs::Known::knows_writes))]
fn knows_writes(config: &Config, writes: &[Write]) -> bool
    ensures { result ≡ knows_writes config.now writes.now }
{
    writes
        .iter()
        .all(|write| knows_shard(config, write.key.shard))
}

#[tactic(auto, unfolding(eris_rules::specs::Known::knows_body))]
fn knows_body(config: &Config, body: &Body) -> bool
    ensures { result ≡ knows_body config.now body.now }
{
    match body {
        Body::Independent(ops) => knows_keys(config, ops.as_slice()),
        Body::Prelim(locks) => knows_keys(config, locks.as_slice()),
        Body::Commit(keys, writes) => knows_keys(config, keys.as_slice())
            && knows_writes(config, writes.as_slice()),
        Body::Abort(keys) => knows_keys(config, keys.as_slice()),
    }
}

#[tactic(auto, unfolding(eris_rules::specs::Known::knows_packet))]
fn knows_packet(config: &Config, packet: &Packet) -> bool
    ensures { result ≡ knows_packet config.now packet.now }
{
    knows_stamp(config, &packet.stamp)
        && knows_id(config, packet.id)
        && knows_client(config, packet.asker)
        && knows_body(config, &packet.body)
}

#[tactic(auto, unfolding(eris_rules::specs::Known::knows_packets))]
fn knows_packets(config: &Config, packets: &[Packet]) -> bool
    ensures { result ≡ knows_packets config.now packets.now }
{
    packets.iter().all(|packet| knows_packet(config, packet))
}

#[tactic(auto, unfolding(eris_rules::specs::Known::knows_held))]
fn knows_held(config: &Config, held: &[(u32, Packet)]) -> bool
    ensures { result ≡ knows_held config.now held.now }
{
    held.iter().all(|pair| knows_packet(config, &pair.1))
}

#[tactic(auto, unfolding(eris_rules::specs::Known::knows_part))]
fn knows_part(config: &Config, part: &Part) -> bool
    ensures { result ≡ knows_part config.now part.now }
{
    knows_shard(config, part.shard())
        && knows_held(config, part.held_list())
        && knows_places(config, part.temp())
        && knows_places(config, part.fnd())
        && knows_places(config, part.perm())
}
