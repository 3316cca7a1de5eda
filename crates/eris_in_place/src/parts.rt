//! Whether a part holds each packet rightly.
ghost use Rattle.std.specs.Prelude.{◌≡◌, ◌==◌, ◌&&◌};
ghost use Rattle.std.specs.List.{list_all};
ghost use Rattle.eris_base.specs.Places.{number_in};
ghost use Rattle.eris_base.specs.StampPlaces.{is_number};
ghost use Rattle.eris_rules.specs.InPlace.{is_right_part, has_right_part};

use eris_base::{Epoch, ShardId};
use eris_log::Part;
use eris_msg::Message;
use eris_txn::Packet;

/// Whether the part in the message, where it has one, holds each packet rightly.
pub fn has_right_part(message: &Message) -> bool
    ensures { result ≡ has_right_part message.now }
{
    match message {
        Message::ViewChange { part, .. } | Message::EpochState { part, .. } => is_right_part(part),
        Message::StartView { part, .. } => is_right_part(part),
        _ => true,
    }
}

/// Whether each packet is of the part's epoch, and its stamp gives the part's shard the number at which it
/// is held.
#[tactic(auto, unfolding(eris_rules::specs::InPlace::is_right_part))]
fn is_right_part(part: &Part) -> bool
    ensures { result ≡ is_right_part part.now }
{
    are_held_right(part.epoch(), part.shard(), part.held_list())
}

fn are_held_right(epoch: Epoch, shard: ShardId, held: &[(u32, Packet)]) -> bool
    ensures { result ≡ list_all (λ pair. pair.1.stamp.epoch.0 == epoch.0
        && is_number (number_in pair.1.stamp.places shard) pair.0) held.now }
{
    held.iter()
        .all(|pair| is_held_right(epoch, shard, pair.0, &pair.1))
}

fn is_held_right(epoch: Epoch, shard: ShardId, number: u32, packet: &Packet) -> bool
    ensures { result ≡ (packet.now.stamp.epoch.0 == epoch.0
        && is_number (number_in packet.now.stamp.places shard) number) }
{
    packet.stamp.epoch == epoch && is_number(packet.stamp.number_of(shard), number)
}

fn is_number(given: Option<u32>, number: u32) -> bool
    ensures { result ≡ is_number given number }
{
    match given {
        Some(given) => given == number,
        None => false,
    }
}
