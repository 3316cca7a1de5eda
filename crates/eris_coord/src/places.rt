//! Ascending rows of places, as the coordinator changes them.
ghost use Rattle.std.specs.Prelude.{◌≡◌, not, filter, IsTrue, OnOk, IfOk};
ghost use Rattle.eris_base.specs.StampPlaces.{has_place};
ghost use Rattle.eris_log.specs.Places.{places_ascend, same_place, with_place, with_places};

use eris_base::{NoMemory, Place, Row, Stamp};
use eris_log::sorted::{include, include_all};
use std::alloc::Global;
use std::mem;

/// Puts the place among ascending ones.
#[tactic(auto, using(eris_log::specs::Laws::Places::place_rules), unfolding(eris_log::specs::Places::with_place))]
pub fn add(places: &mut Row<Place>, place: Place) -> Result<(), NoMemory>
    requires { IsTrue (places_ascend places.old) }
    ensures ok { OnOk result (places.new ≡ with_place places.old place) }
    ensures ascends { IsTrue (places_ascend places.new) }
{
    include(places, place)
}

/// Puts more places among ascending ones.
#[tactic(auto, using(eris_log::specs::Laws::Places::place_rules), unfolding(eris_log::specs::Places::with_places))]
pub fn add_all(alloc: Global, places: &mut Row<Place>, others: &[Place]) -> Result<(), NoMemory>
    requires { IsTrue (places_ascend places.old) }
    ensures ok { OnOk result (places.new ≡ with_places places.old others.now) }
    ensures ascends { IsTrue (places_ascend places.new) }
{
    include_all(alloc, places, others)
}

/// Takes the place out of ascending ones.
#[tactic(auto, using(crate::proofs::PlaceLaws::place_laws))]
pub fn remove(alloc: Global, places: &mut Row<Place>, place: Place)
    ensures rest { places.new ≡ filter (λ other. not (same_place other place)) places.old }
    ensures ascends { IsTrue (places_ascend places.old) → IsTrue (places_ascend places.new) }
{
    let mut rest = mem::replace(places, Row::new(alloc)).into_vec();
    retain_others(&mut rest, place);
    *places = Row::from_vec(rest);
}

fn retain_others(places: &mut Vec<Place>, place: Place)
    ensures { places.new.items ≡ filter (λ other. not (same_place other place)) places.old.items }
{
    places.retain(|other| !is_same(*other, place));
}

#[tactic(auto, unfolding(eris_log::specs::Places::same_place))]
fn is_same(some: Place, other: Place) -> bool
    ensures { result ≡ same_place some other }
{
    some.epoch == other.epoch && some.shard == other.shard && some.number == other.number
}

/// Takes the places that the stamp has out of ascending ones.
#[tactic(auto, using(crate::proofs::PlaceLaws::place_laws))]
pub fn remove_had(alloc: Global, places: &mut Row<Place>, stamp: &Stamp)
    ensures rest { places.new ≡ filter (λ place. not (has_place stamp.now place)) places.old }
    ensures ascends { IsTrue (places_ascend places.old) → IsTrue (places_ascend places.new) }
{
    let mut rest = mem::replace(places, Row::new(alloc)).into_vec();
    retain_not_had(&mut rest, stamp);
    *places = Row::from_vec(rest);
}

fn retain_not_had(places: &mut Vec<Place>, stamp: &Stamp)
    ensures { places.new.items ≡ filter (λ place. not (has_place stamp.now place)) places.old.items }
{
    places.retain(|place| !stamp.has(*place));
}

/// The places that the stamp has.
pub fn places_had(alloc: Global, places: &[Place], stamp: &Stamp) -> Result<Row<Place>, NoMemory>
    ensures { IfOk result (λ had. had ≡ filter (λ place. has_place stamp.now place) places.now) }
{
    let mut had = Row::new(alloc);
    for place in places {
        if stamp.has(*place) {
            had.push(*place)?;
        }
    }
    Ok(had)
}
