ghost use Rattle.std.specs.Prelude.{◌≡◌, ◌==◌, ◌+◌, ◌<◌, ◌^◌, IsSome, IsTrue, is_some, drop, if◌then◌else◌};
ghost use Rattle.std.specs.Option.{option_copied, option_map};
ghost use Rattle.std.specs.Ordering.{nat_cmp};
ghost use Rattle.eris_log.specs.Places.{place_cmp, same_place};
ghost use Rattle.eris_log.specs.Sorted.{head_at};

use eris_base::{Epoch, Place, ShardId};
use eris_txn::Packet;

/// The first packet, where its number comes right behind this one.
pub fn first_packet(held: &[(u32, Packet)], number: u32) -> Option<&Packet>
    ensures packet { option_copied result ≡ option_map (λ pair. pair.1) (head_at (λ pair. pair.0) nat_cmp held.now (number + 1)) }
    ensures taken { is_some result ≡ is_some (head_at (λ pair. pair.0) nat_cmp held.now (number + 1)) }
    ensures fits { IsSome result → number + 1 < 2 ^ 32 }
{
    let [first, ..] = held else {
        return None;
    };
    if is_next(number, first.0) {
        Some(&first.1)
    } else {
        None
    }
}

/// Whether the first place is the one right behind this number.
pub fn is_first(places: &[Place], epoch: Epoch, shard: ShardId, number: u32) -> bool
    ensures first { result ≡ is_some (head_at (λ place. place) place_cmp places.now (record { epoch = epoch; shard = shard; number = number + 1 })) }
    ensures fits { IsTrue result → number + 1 < 2 ^ 32 }
{
    let [first, ..] = places else {
        return false;
    };
    is_behind(first, epoch, shard, number)
}

#[tactic(auto, unfolding(crate::specs::Places::same_place))]
fn is_behind(place: &Place, epoch: Epoch, shard: ShardId, number: u32) -> bool
    ensures exact { result ≡ same_place place.now (record { epoch = epoch; shard = shard; number = number + 1 }) }
    ensures fits { IsTrue result → number + 1 < 2 ^ 32 }
{
    place.epoch == epoch && place.shard == shard && is_next(number, place.number)
}

/// The items without the first, if it was taken.
pub fn behind<T>(items: &[T], taken: bool) -> &[T]
    ensures { result.now ≡ (if taken then drop 1 items.now else items.now) }
{
    match items {
        [_, rest @ ..] if taken => rest,
        _ => items,
    }
}

fn is_next(number: u32, other: u32) -> bool
    ensures exact { result ≡ (other == number + 1) }
    ensures fits { IsTrue result → number + 1 < 2 ^ 32 }
{
    number < other && other - number == 1
}
