//! The index, and whether a packet stands in the list that it was made of.
ghost use Rattle.std.specs.Prelude.{◌≡◌, true, IsTrue, IfOk};
ghost use Rattle.eris_epoch.specs.SamePackets.{is_listed};
ghost use Rattle.eris_packet_index.specs.FirstPlaces.{KnowsAll, at_first, first_place};

use eris_base::{NoMemory, Place, Same, ShardId, Stamp};
use eris_order_lines::is_listed;
use eris_txn::Packet;
use std::alloc::Global;
use std::collections::BTreeMap;
use std::marker::Model;

/// For each first place of the stamps of a list's packets, where in the list one of them stands. Its view is the
/// list of these pairs, ascending by place.
#[derive(Drop)]
pub struct PacketIndex {
    ats: BTreeMap<Place, usize>,
}

impl Model for PacketIndex {
    ghost use Rattle.std.specs.Prelude.{List, ℕ};
    ghost use Rattle.eris_base.specs.declared.ids.Place.{Place};

    ghost Value = { List (Place × ℕ) };

    ghost view = { λ index. index.ats.entries };
}

impl PacketIndex {
    /// The index of the packets.
    ///
    /// # Errors
    ///
    /// [`NoMemory`] where an allocation was refused.
    pub fn of(alloc: Global, packets: &[Packet]) -> Result<PacketIndex, NoMemory>
        ensures { IfOk result (λ index. KnowsAll index packets.now) }
    {
        Ok(PacketIndex {
            ats: first_places(alloc, packets)?,
        })
    }

    /// Whether the packet stands in the list, of which this is an index; the list is taken as it was then. It takes no
    /// memory. Where another packet with its first place was noted, which no run of the protocol makes, it looks at the
    /// whole list.
    pub fn is_listed(&self, packets: &[Packet], packet: &Packet) -> bool
        requires { KnowsAll self.now packets.now }
        ensures { result ≡ is_listed packets.now packet.now }
    {
        match self.find(&packet.stamp) {
            Some(at) => is_listed_at(packets, packet, at),
            None => false,
        }
    }

    fn find(&self, stamp: &Stamp) -> Option<usize>
        ensures { result ≡ at_first self.now (first_place stamp.now) }
    {
        self.ats.get(&first_place(stamp)).copied()
    }
}

fn first_place(stamp: &Stamp) -> Place
    ensures { result ≡ first_place stamp.now }
{
    match stamp.places() {
        [] => Place {
            epoch: stamp.epoch,
            shard: ShardId(0),
            number: 0,
        },
        [first, ..] => Place {
            epoch: stamp.epoch,
            shard: first.0,
            number: first.1,
        },
    }
}

fn first_places(alloc: Global, packets: &[Packet]) -> Result<BTreeMap<Place, usize>, NoMemory>
    ensures { IfOk result (λ ats. KnowsAll ats.entries packets.now) }
{
    let mut ats = BTreeMap::new(alloc);
    for (at, packet) in packets.iter().enumerate() {
        ats.insert(first_place(&packet.stamp), at)?;
    }
    Ok(ats)
}

fn is_listed_at(packets: &[Packet], packet: &Packet, at: usize) -> bool
    ensures { result ≡ is_listed packets.now packet.now }
{
    if stands_at(packets, packet, at) {
        true
    } else {
        is_listed(packets, packet)
    }
}

fn stands_at(packets: &[Packet], packet: &Packet, at: usize) -> bool
    ensures { IsTrue result → is_listed packets.now packet.now ≡ true }
{
    match packets.get(at) {
        Some(other) => packet.same(other),
        None => false,
    }
}
