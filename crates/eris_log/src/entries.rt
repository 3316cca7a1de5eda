ghost use Rattle.std.specs.Prelude.{◌≡◌, ◌||◌, not, map, find, IsTrue};
ghost use Rattle.std.specs.List.{list_all};
ghost use Rattle.std.specs.Option.{option_copied, option_map};
ghost use Rattle.eris_base.specs.StampPlaces.{has_place};
ghost use Rattle.eris_log.specs.Entries.{all_found, is_held_and};
ghost use Rattle.eris_log.specs.Places.{contains_place, places_ascend, any_among};

use crate::places::{any_among, is_among};
use eris_base::{Epoch, Place, ShardId, Stamp};
use eris_txn::Packet;

/// Whether a packet is there and some place of it is dropped for good.
pub fn is_lost(perm: &[Place], packet: Option<&Packet>) -> bool
    requires { IsTrue (places_ascend perm.now) }
    ensures { result ≡ is_held_and (λ held. any_among perm.now held.stamp) (option_copied packet.entry) }
{
    match packet {
        Some(packet) => any_among(perm, &packet.stamp),
        None => false,
    }
}

/// Whether a packet is there and each place of it that is dropped for a time is found.
pub fn is_clear(temp: &[Place], fnd: &[Place], packet: Option<&Packet>) -> bool
    requires temp { IsTrue (places_ascend temp.now) }
    requires fnd { IsTrue (places_ascend fnd.now) }
    ensures { result ≡ is_held_and (λ held. all_found temp.now fnd.now held.stamp) (option_copied packet.entry) }
{
    match packet {
        Some(packet) => all_found(temp, fnd, &packet.stamp),
        None => false,
    }
}

#[tactic(auto, unfolding(crate::specs::Entries::all_found, crate::specs::Places::places_of))]
fn all_found(temp: &[Place], fnd: &[Place], stamp: &Stamp) -> bool
    requires temp { IsTrue (places_ascend temp.now) }
    requires fnd { IsTrue (places_ascend fnd.now) }
    ensures { result ≡ all_found temp.now fnd.now stamp.now }
{
    all_named_found(temp, fnd, stamp.epoch, stamp.places())
}

fn all_named_found(temp: &[Place], fnd: &[Place], epoch: Epoch, named: &[(ShardId, u32)]) -> bool
    requires temp { IsTrue (places_ascend temp.now) }
    requires fnd { IsTrue (places_ascend fnd.now) }
    ensures { result ≡ list_all (λ place. not (contains_place temp.now place) || contains_place fnd.now place)
        (map (λ place. record { epoch = epoch; shard = place.0; number = place.1 }) named.now) }
{
    named
        .iter()
        .map(|place| Place {
            epoch,
            shard: place.0,
            number: place.1,
        })
        .all(|place| !is_among(temp, place) || is_among(fnd, place))
}

/// The number of the first packet that has the place.
pub fn holder_of(held: &[(u32, Packet)], place: Place) -> Option<u32>
    ensures { result ≡ option_map (λ pair. pair.0) (find (λ pair. has_place pair.1.stamp place) held.now) }
{
    held.iter()
        .find(|pair| pair.1.stamp.has(place))
        .map(|pair| pair.0)
}
