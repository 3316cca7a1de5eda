ghost use Rattle.std.specs.Prelude.{◌≡◌};
ghost use Rattle.std.specs.Option.{option_copied};
ghost use Rattle.eris_epoch.specs.SamePackets.{is_listed, same_packet};
ghost use Rattle.eris_log.specs.Entries.{is_held_and};
ghost use Rattle.eris_rules.specs.WorldOrders.{has_packet};

use eris_base::Same;
use eris_log::Part;
use eris_txn::Packet;

/// Whether the packet stands in the list. It looks at each, and takes no memory.
#[tactic(auto, unfolding(eris_epoch::specs::SamePackets::is_listed))]
pub fn is_listed(packets: &[Packet], packet: &Packet) -> bool
    ensures { result ≡ is_listed packets.now packet.now }
{
    packets.iter().any(|other| is_same(packet, other))
}

/// Whether the part holds the packet at the number that its stamp gives the part's shard. It takes no memory.
pub fn has_packet(part: &Part, packet: &Packet) -> bool
    ensures { result ≡ has_packet part.now packet.now }
{
    match packet.stamp.number_of(part.shard()) {
        Some(number) => is_held(part.held(number), packet),
        None => false,
    }
}

fn is_held(held: Option<&Packet>, packet: &Packet) -> bool
    ensures { result ≡ is_held_and (λ other. same_packet packet.now other) (option_copied held.entry) }
{
    match held {
        Some(other) => is_same(packet, other),
        None => false,
    }
}

fn is_same(some: &Packet, other: &Packet) -> bool
    ensures { result ≡ same_packet some.now other.now }
{
    some.same(other)
}
