//! Lists of packets.
ghost use Rattle.std.specs.Prelude.{◌≡◌, ◌++◌, OnOk, IfOk, find};
ghost use Rattle.std.specs.Option.{option_copied};
ghost use Rattle.eris_rules.specs.EpochCoords.{finder_of};

use eris_base::{Dup, NoMemory, Place, Row};
use eris_txn::Packet;
use std::alloc::Global;

/// A copy of the first packet that has the place, if there is one.
pub fn copy_finder(
    alloc: Global,
    found: &[Packet],
    place: Place,
) -> Result<Option<Packet>, NoMemory>
    ensures { IfOk result (λ packet. packet ≡ finder_of found.now place) }
{
    copy_some(alloc, finder_of(found, place))
}

#[tactic(auto, unfolding(eris_rules::specs::EpochCoords::finder_of))]
fn finder_of(found: &[Packet], place: Place) -> Option<&Packet>
    ensures { option_copied result ≡ finder_of found.now place }
{
    found.iter().find(|packet| packet.stamp.has(place))
}

fn copy_some(alloc: Global, packet: Option<&Packet>) -> Result<Option<Packet>, NoMemory>
    ensures { IfOk result (λ made. made ≡ option_copied packet.entry) }
{
    match packet {
        Some(packet) => Ok(Some(packet.copy(alloc)?)),
        None => Ok(None),
    }
}

/// Adds the packets at the end.
pub fn add_all(packets: &mut Row<Packet>, more: Row<Packet>) -> Result<(), NoMemory>
    ensures { OnOk result (packets.new ≡ packets.old ++ more) }
{
    for packet in more.into_vec() {
        packets.push(packet)?;
    }
    Ok(())
}
