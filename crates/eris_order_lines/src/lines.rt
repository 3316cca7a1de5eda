ghost use Rattle.std.specs.Prelude.{◌≡◌, Bool, IfOk};
ghost use Rattle.eris_order.specs.Orders.{order_lines};
ghost use Rattle.eris_order_lines.specs.Noted.{outcome_by_first};

use crate::firsts::first_outcomes;
use crate::ids::Ids;
use crate::outcomes::{is_conclusory, outcome_of};
use eris_audit::{OrderLine, Outcome};
use eris_base::{Dup, NoMemory, Row};
use eris_txn::Packet;
use std::alloc::Global;

/// The lines of the order of these packets: one for the first packet of each independent transaction and of each
/// preliminary, in order, with its stamp and what became of it. It goes over the packets twice, and looks up ids
/// in ordered maps.
pub fn order_lines(alloc: Global, packets: &[Packet]) -> Result<Row<OrderLine>, NoMemory>
    ensures { IfOk result (λ lines. lines ≡ order_lines packets.now) }
{
    let firsts = first_outcomes(alloc, packets)?;
    let mut lines = Row::new(alloc);
    let mut seen = Ids::new(alloc);
    let mut decided = Ids::new(alloc);
    for packet in packets {
        if is_conclusory(&packet.body) {
            decided.add(packet.id)?;
        } else if !seen.has(packet.id) {
            let is_decided = decided.has(packet.id);
            let line = line_of(alloc, packet, is_decided, firsts.outcome(packet.id))?;
            lines.push(line)?;
            seen.add(packet.id)?;
        }
    }
    Ok(lines)
}

fn line_of(
    alloc: Global,
    packet: &Packet,
    decided: bool,
    first: Outcome,
) -> Result<OrderLine, NoMemory>
    ensures { IfOk result (λ line. line ≡ record { id = packet.now.id; outcome = outcome_by_first packet.now.body decided first; stamp = packet.now.stamp }) }
{
    Ok(OrderLine {
        id: packet.id,
        outcome: outcome_of(&packet.body, decided, first),
        stamp: packet.stamp.copy(alloc)?,
    })
}
