ghost use Rattle.std.specs.Prelude.{◌≡◌, IfOk, IsTrue};
ghost use Rattle.eris_base.specs.Places.{number_in, are_stamp_places};

use crate::copying::{Dup, Same};
use crate::ids::{Epoch, Place, ShardId};
use crate::no_memory::NoMemory;
use crate::row::Row;
use std::alloc::Global;
use std::marker::Model;

/// The numbers that one stamping gave in one step: an epoch, and a number for each of its shards. The
/// shards strictly ascend, and there is at least one, whoever makes the stamp.
#[derive(Debug, Drop)]
pub struct Stamp {
    pub epoch: Epoch,
    pub places: Row<(ShardId, u32)>,
}

impl Model for Stamp {
    ghost use Rattle.std.specs.Prelude.{IsTrue};
    ghost use Rattle.eris_base.specs.Stamps.{StampValue};
    ghost use Rattle.eris_base.specs.Places.{are_stamp_places};

    ghost Value = { StampValue };

    ghost view = { λ s. record { epoch = s.epoch; places = s.places } };

    ghost invariant = { λ s. IsTrue (are_stamp_places s.places) };

    ghost inverse = { λ s. record { epoch = s.epoch; places = s.places } };
}

impl Stamp {
    ghost use Rattle.eris_base.specs.StampPlaces.{has_place};

    /// The shards and their numbers, shards strictly ascending, at least one. It takes no memory.
    pub fn places(&self) -> &[(ShardId, u32)]
        ensures exact { result.now ≡ self.now.places }
        ensures fits { IsTrue (are_stamp_places self.now.places) }
    {
        self.places.as_slice()
    }

    /// The number that the stamp gives the shard. None exactly where it doesn't name the shard. It takes
    /// no memory.
    pub fn number_of(&self, shard: ShardId) -> Option<u32>
        ensures { result ≡ number_in self.now.places shard }
    {
        self.places
            .as_slice()
            .iter()
            .find(|place| place.0 == shard)
            .map(|place| place.1)
    }

    /// Whether the place's epoch, shard and number are in the stamp. It takes no memory.
    pub fn has(&self, place: Place) -> bool
        ensures { result ≡ has_place self.now place }
    {
        self.epoch == place.epoch && self.number_of(place.shard) == Some(place.number)
    }
}

impl Dup for Stamp {
    fn copy(&self, alloc: Global) -> Result<Stamp, NoMemory> {
        Ok(Stamp {
            epoch: self.epoch,
            places: self.places.copy(alloc)?,
        })
    }
}

impl Same for Stamp {
    fn same(&self, other: &Stamp) -> bool {
        self.epoch == other.epoch && self.places.same(&other.places)
    }
}
