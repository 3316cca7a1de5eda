//! Ascending rows of places, and places as shards and numbers of an epoch.
ghost use Rattle.std.specs.Prelude.{◌≡◌, IsTrue, OnOk, OnErr, IfOk, map};
ghost use Rattle.eris_base.specs.declared.ids.Epoch.{Epoch};
ghost use Rattle.eris_log.specs.PartFacts.{AreMarks};
ghost use Rattle.eris_log.specs.Places.{contains_place, places_ascend, with_place, with_places, places_at, places_of, pairs_of, any_among};
ghost use Rattle.std.specs.List.{list_any};

use crate::sorted::{Keyed, contains, include, include_all, merged};
use eris_base::{Epoch, NoMemory, Place, Row, ShardId, Stamp};
use std::alloc::Global;

impl Keyed for Place {
    type Key = Place;

    ghost key_of = { λ place. place };

    fn key(&self) -> Place {
        *self
    }
}

/// Whether the place is among ascending ones. It takes no memory.
#[tactic(auto, using(crate::specs::Laws::Places::place_rules))]
pub fn is_among(places: &[Place], place: Place) -> bool
    requires { IsTrue (places_ascend places.now) }
    ensures { result ≡ contains_place places.now place }
{
    contains(places, &place)
}

/// Whether some place of the stamp is among ascending places. It takes no memory.
#[tactic(auto, unfolding(crate::specs::Places::any_among, crate::specs::Places::places_of))]
pub fn any_among(places: &[Place], stamp: &Stamp) -> bool
    requires { IsTrue (places_ascend places.now) }
    ensures { result ≡ any_among places.now stamp.now }
{
    any_named(places, stamp.epoch, stamp.places())
}

fn any_named(places: &[Place], epoch: Epoch, named: &[(ShardId, u32)]) -> bool
    requires { IsTrue (places_ascend places.now) }
    ensures { result ≡ list_any (λ place. contains_place places.now place)
        (map (λ place. record { epoch = epoch; shard = place.0; number = place.1 }) named.now) }
{
    named
        .iter()
        .map(|place| Place {
            epoch,
            shard: place.0,
            number: place.1,
        })
        .any(|place| is_among(places, place))
}

/// Puts the place among ascending ones. After [`NoMemory`] they are as before.
#[tactic(auto, using(crate::specs::Laws::Places::place_rules), unfolding(crate::specs::Places::with_place))]
pub fn add(places: &mut Row<Place>, place: Place) -> Result<(), NoMemory>
    requires { IsTrue (places_ascend places.old) }
    ensures ok { OnOk result (places.new ≡ with_place places.old place) }
    ensures err { OnErr result (places.new ≡ places.old) }
    ensures marks { (epoch : Epoch) → AreMarks epoch places.old → place.epoch ≡ epoch → AreMarks epoch places.new }
{
    include(places, place)
}

/// Puts more ascending places among ascending ones. After [`NoMemory`] they are as before.
#[tactic(auto, using(crate::specs::Laws::Places::place_rules), unfolding(crate::specs::Places::with_places))]
pub fn add_all(alloc: Global, places: &mut Row<Place>, others: &[Place]) -> Result<(), NoMemory>
    requires { IsTrue (places_ascend places.old) }
    ensures ok { OnOk result (places.new ≡ with_places places.old others.now) }
    ensures err { OnErr result (places.new ≡ places.old) }
    ensures marks { (epoch : Epoch) → AreMarks epoch places.old → AreMarks epoch others.now → AreMarks epoch places.new }
{
    include_all(alloc, places, others)
}

/// The places of both lists.
#[tactic(auto, using(crate::specs::Laws::Places::place_rules), unfolding(crate::specs::Places::with_places))]
pub fn all_of(alloc: Global, places: &[Place], others: &[Place]) -> Result<Row<Place>, NoMemory>
    requires first { IsTrue (places_ascend places.now) }
    requires second { IsTrue (places_ascend others.now) }
    ensures places { IfOk result (λ made. made ≡ with_places places.now others.now) }
    ensures marks { IfOk result (λ made. (epoch : Epoch) → AreMarks epoch places.now → AreMarks epoch others.now → AreMarks epoch made) }
{
    merged(alloc, places, others)
}

/// The places that a stamp names.
#[tactic(auto, using(crate::specs::Laws::Places::place_rules), unfolding(crate::specs::Places::places_of))]
pub fn places_of(alloc: Global, stamp: &Stamp) -> Result<Row<Place>, NoMemory>
    ensures places { IfOk result (λ places. places ≡ places_of stamp.now) }
    ensures marks { IfOk result (λ places. AreMarks stamp.now.epoch places) }
{
    let places = places_at(alloc, stamp.epoch, stamp.places())?;
    Ok(places)
}

/// Shards and numbers as places of an epoch.
pub fn places_at(
    alloc: Global,
    epoch: Epoch,
    pairs: &[(ShardId, u32)],
) -> Result<Row<Place>, NoMemory>
    ensures { IfOk result (λ places. places ≡ places_at epoch pairs.now) }
{
    let mut places = Row::new(alloc);
    for place in pairs {
        places.push(Place {
            epoch,
            shard: place.0,
            number: place.1,
        })?;
    }
    Ok(places)
}

/// The shards and numbers of places.
pub fn pairs_of(alloc: Global, places: &[Place]) -> Result<Row<(ShardId, u32)>, NoMemory>
    ensures { IfOk result (λ pairs. pairs ≡ pairs_of places.now) }
{
    let mut pairs = Row::new(alloc);
    for place in places {
        pairs.push((place.shard, place.number))?;
    }
    Ok(pairs)
}
