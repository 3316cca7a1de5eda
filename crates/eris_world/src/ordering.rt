//! The order that a world makes of what was stamped.
ghost use Rattle.std.specs.Prelude.{◌≡◌, ◌++◌, false, filter, IfOk, OnOk};
ghost use Rattle.eris_rules.specs.WorldOrders.{order, stamping_list, survives, survives_now};
ghost use Rattle.eris_packet_index.specs.FirstPlaces.{KnowsAll};
ghost use Rattle.eris_world.specs.Listed.{IsOfWorld};

use crate::world::World;
use eris_base::{Dup, Epoch, NoMemory, Row};
use eris_log::places::any_among;
use eris_nodes::count_of;
use eris_packet_index::PacketIndex;
use eris_sequencer::Sequencers;
use eris_txn::Packet;
use std::alloc::Global;

/// The indexes of the closed packets, and of those that were found in the current epoch.
#[derive(Drop)]
struct Index {
    closed: PacketIndex,
    found: PacketIndex,
}

impl World {
    /// The packets that survive, in the order of the stamping list.
    pub(crate) fn order(&self) -> Result<Row<Packet>, NoMemory>
        requires { self.now.spent ≡ false }
        ensures { IfOk result (λ packets. packets ≡ order self.now.state) }
    {
        let index = self.index()?;
        all_survivors(self.alloc, self, &index, &self.sequencers)
    }

    // The closed and the found packets, indexed.
    fn index(&self) -> Result<Index, NoMemory>
        ensures { IfOk result (λ index. IsOfWorld index self.now.state) }
    {
        Ok(Index {
            closed: PacketIndex::of(self.alloc, self.coordinator.closed())?,
            found: PacketIndex::of(self.alloc, self.coordinator.found())?,
        })
    }

    /// Whether the packet is closed, or is one of the current epoch that isn't dropped and that somebody has.
    #[tactic(auto, unfolding(eris_rules::specs::WorldOrders::survives))]
    fn survives(&self, index: &Index, packet: &Packet) -> bool
        requires { IsOfWorld index.now self.now.state }
        ensures { result ≡ survives self.now.state packet.now }
    {
        index.closed.is_listed(self.coordinator.closed(), packet)
            || self.survives_now(&index.found, packet)
    }

    #[tactic(auto, unfolding(eris_rules::specs::WorldOrders::survives_now))]
    fn survives_now(&self, found: &PacketIndex, packet: &Packet) -> bool
        requires { KnowsAll found.now self.now.state.coordinator.inner.found }
        ensures { result ≡ survives_now self.now.state packet.now }
    {
        packet.stamp.epoch.0 == self.coordinator.current().0
            && !any_among(self.coordinator.dropped(), &packet.stamp)
            && (found.is_listed(self.coordinator.found(), packet)
                || self.replicas.is_held(self.coordinator.current(), packet))
    }
}

/// The survivors among all that the sequencers stamped, by epochs.
fn all_survivors(
    alloc: Global,
    world: &World,
    index: &Index,
    sequencers: &Sequencers,
) -> Result<Row<Packet>, NoMemory>
    requires unspent { sequencers.now.spent ≡ false }
    requires index { IsOfWorld index.now world.now.state }
    ensures { IfOk result (λ packets. packets ≡ filter (survives world.now.state) (stamping_list sequencers.now.stampings)) }
{
    let mut packets = Row::new(alloc);
    for number in 0..sequencers.newest().0 as usize + 1 {
        let epoch = Epoch(count_of(number)?);
        add_survivors(alloc, world, index, sequencers.stamped(epoch), &mut packets)?;
    }
    Ok(packets)
}

/// Adds those of an epoch.
fn add_survivors(
    alloc: Global,
    world: &World,
    index: &Index,
    stamped: &[Packet],
    packets: &mut Row<Packet>,
) -> Result<(), NoMemory>
    requires { IsOfWorld index.now world.now.state }
    ensures { OnOk result (packets.new ≡ packets.old ++ filter (survives world.now.state) stamped.now) }
{
    for packet in stamped {
        if world.survives(index, packet) {
            packets.push(packet.copy(alloc)?)?;
        }
    }
    Ok(())
}
