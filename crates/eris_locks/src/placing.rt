//! Where a stamp puts its packet on a shard.
ghost use Rattle.std.specs.Prelude.{◌≡◌};
ghost use Rattle.eris_locks.specs.Shards.{place_on};

use eris_base::{Place, ShardId, Stamp};

/// The place of a stamp on a shard that it names. On any other shard the number is 0, which no packet has.
pub fn place_on(shard: ShardId, stamp: &Stamp) -> Place
    ensures { result ≡ place_on shard stamp.now }
{
    Place {
        epoch: stamp.epoch,
        shard,
        number: stamp.number_of(shard).unwrap_or(0),
    }
}
