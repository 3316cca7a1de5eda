ghost use Rattle.std.specs.Prelude.{◌≡◌, IsTrue, true, nat_lt, OnOk, OnErr, IfOk};
ghost use Rattle.std.specs.Option.{option_copied};
ghost use Rattle.eris_log.specs.Held.{numbers_ascend, packet_at, with_packet, with_packets};
ghost use Rattle.eris_log.specs.PartFacts.{AreHeld};

use crate::sorted::{Keyed, get, include, merged};
use eris_base::{NoMemory, Row};
use eris_txn::Packet;
use std::alloc::Global;

impl Keyed for (u32, Packet) {
    type Key = u32;

    ghost key_of = { λ pair. pair.0 };

    fn key(&self) -> u32 {
        self.0
    }
}

/// The packet that is held at the number.
#[tactic(auto, using(crate::specs::Laws::Held::held_rules))]
pub fn packet_at(held: &[(u32, Packet)], number: u32) -> Option<&Packet>
    requires { IsTrue (numbers_ascend held.now) }
    ensures { option_copied result ≡ packet_at held.now number }
{
    match get(held, &number) {
        Some(pair) => Some(&pair.1),
        None => None,
    }
}

/// Puts the packet at the number, unless one is held there. After [`NoMemory`] all is as before.
#[tactic(auto, using(crate::specs::Laws::Held::held_rules), unfolding(crate::specs::Held::with_packet))]
pub fn add(held: &mut Row<(u32, Packet)>, number: u32, packet: Packet) -> Result<(), NoMemory>
    requires { IsTrue (numbers_ascend held.old) }
    ensures ok { OnOk result (held.new ≡ with_packet held.old number packet) }
    ensures err { OnErr result (held.new ≡ held.old) }
    ensures held { AreHeld held.old → nat_lt 0 number ≡ true → AreHeld held.new }
{
    include(held, (number, packet))
}

/// Copies of the packets of both; where both hold a number, the packet of the first.
#[tactic(auto, using(crate::specs::Laws::Held::held_rules), unfolding(crate::specs::Held::with_packets))]
pub fn all_of(
    alloc: Global,
    held: &[(u32, Packet)],
    others: &[(u32, Packet)],
) -> Result<Row<(u32, Packet)>, NoMemory>
    requires first { IsTrue (numbers_ascend held.now) }
    requires second { IsTrue (numbers_ascend others.now) }
    ensures packets { IfOk result (λ made. made ≡ with_packets held.now others.now) }
    ensures held { IfOk result (λ made. AreHeld held.now → AreHeld others.now → AreHeld made) }
{
    merged(alloc, held, others)
}
