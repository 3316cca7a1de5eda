use anyhow::bail;
use eris_base::{ReplicaId, ShardId};
use eris_txn::Packet;
use eris_world::World;
use std::alloc::Global;

/// The packets and the settled logs, a line each.
pub(crate) fn tell(alloc: Global, world: &World) -> anyhow::Result<String> {
    let packets = packets(alloc, world)?;
    let logs = logs(alloc, world)?;
    Ok(format!(in alloc; "{packets}{logs}")?)
}

fn packets(alloc: Global, world: &World) -> anyhow::Result<String> {
    let mut lines = String::new(alloc);
    for number in 0..world.sent() {
        let frame = world.packet(number).unwrap_or(b"");
        let digits = hex::encode(alloc, frame)?;
        let line = format!(in alloc; "packet {number} {digits}\n")?;
        lines.push_str(line.as_str())?;
    }
    Ok(lines)
}

fn logs(alloc: Global, world: &World) -> anyhow::Result<String> {
    let mut lines = String::new(alloc);
    for number in 0..4 {
        let line = log(alloc, world, ReplicaId(number))?;
        lines.push_str(line.as_str())?;
    }
    Ok(lines)
}

fn log(alloc: Global, world: &World, replica: ReplicaId) -> anyhow::Result<String> {
    if world.is_spent() {
        bail!("the world is spent");
    }
    let log = world.settled_log(ShardId(0), replica)?;
    let ids = ids(alloc, log.as_slice())?;
    Ok(format!(in alloc; "settled {}:{ids}\n", replica.0)?)
}

/// The ids of the packets' transactions, as a script writes them.
fn ids(alloc: Global, log: &[Packet]) -> anyhow::Result<String> {
    let mut words = String::new(alloc);
    for packet in log {
        let word = format!(in alloc; " {}.{}", packet.id.client.0, packet.id.number)?;
        words.push_str(word.as_str())?;
    }
    Ok(words)
}
