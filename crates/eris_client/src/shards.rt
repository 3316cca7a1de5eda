//! Shards among shards.
ghost use Rattle.std.specs.Prelude.{◌≡◌, ◌&&◌, is_some};
ghost use Rattle.std.specs.List.{list_all};
ghost use Rattle.eris_base.specs.Places.{number_in};
ghost use Rattle.eris_txn.specs.Bodies.{has_shard};
ghost use Rattle.eris_client.specs.Assembled.{count_of};

use eris_base::{ShardId, Stamp};

/// Whether the shard stands among these.
pub fn has_shard(shards: &[ShardId], shard: ShardId) -> bool
    ensures { result ≡ has_shard shards.now shard }
{
    shards.iter().any(|other| *other == shard)
}

/// How often the shard stands among these.
pub fn count_of(shards: &[ShardId], shard: ShardId) -> usize
    ensures { result ≡ count_of shards.now shard }
{
    shards.iter().filter(|other| **other == shard).count()
}

/// Whether each shard of the stamp is one of these, and each of these is named by the stamp.
pub fn names_shards(stamp: &Stamp, shards: &[ShardId]) -> bool
    ensures { result ≡ (list_all (λ place. has_shard shards.now place.0) stamp.now.places
        && list_all (λ shard. is_some (number_in stamp.now.places shard)) shards.now) }
{
    have_places(stamp.places(), shards) && are_named(stamp, shards)
}

fn have_places(places: &[(ShardId, u32)], shards: &[ShardId]) -> bool
    ensures { result ≡ list_all (λ place. has_shard shards.now place.0) places.now }
{
    places.iter().all(|place| has_shard(shards, place.0))
}

fn are_named(stamp: &Stamp, shards: &[ShardId]) -> bool
    ensures { result ≡ list_all (λ shard. is_some (number_in stamp.now.places shard)) shards.now }
{
    shards.iter().all(|shard| is_named(stamp, *shard))
}

fn is_named(stamp: &Stamp, shard: ShardId) -> bool
    ensures { result ≡ is_some (number_in stamp.now.places shard) }
{
    stamp.number_of(shard).is_some()
}
