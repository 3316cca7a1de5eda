ghost use Rattle.std.specs.Prelude.{◌≡◌, ◌++◌, IfOk, OnOk};
ghost use Rattle.eris_locks.specs.LockTable.{run_dones, run_state, step};
ghost use Rattle.eris_locks.specs.Shards.{cut, names_shard, on_shard};
ghost use Rattle.eris_store.specs.MapValues.{map_state, map_stepped};
ghost use Rattle.eris_store.specs.Stores.{step_named};

use crate::table::Table;
use eris_base::{NoMemory, Row, ShardId};
use eris_locks::Done;
use eris_plain_store::{add_all, cut};
use eris_txn::Packet;
use std::alloc::Global;

/// Steps a table with what a packet is to the shard.
pub(crate) fn step_cut(
    alloc: Global,
    shard: ShardId,
    table: &mut Table,
    packet: &Packet,
) -> Result<Row<Done>, NoMemory>
    ensures { IfOk result (λ dones. map_stepped table.new dones ≡ step (map_state table.old) (cut shard packet.now)) }
{
    let own = cut(alloc, shard, packet)?;
    table.step(own)
}

fn is_named(shard: ShardId, packet: &Packet) -> bool
    ensures { result ≡ names_shard shard packet.now }
{
    packet.stamp.number_of(shard).is_some()
}

/// Steps a table with a packet that names the shard, and does nothing with another.
fn step_if_named(
    alloc: Global,
    shard: ShardId,
    table: &mut Table,
    packet: &Packet,
) -> Result<Row<Done>, NoMemory>
    ensures { IfOk result (λ dones. map_stepped table.new dones ≡ step_named shard (map_state table.old) packet.now) }
{
    if is_named(shard, packet) {
        step_cut(alloc, shard, table, packet)
    } else {
        Ok(Row::new(alloc))
    }
}

/// Steps a table with those of the packets that name the shard, and joins the answers.
pub(crate) fn run_named(
    alloc: Global,
    shard: ShardId,
    table: &mut Table,
    packets: &[Packet],
) -> Result<Row<Done>, NoMemory>
    ensures dones { IfOk result (λ dones. dones ≡ run_dones (map_state table.old) (on_shard shard packets.now)) }
    ensures state { OnOk result (map_state table.new ≡ run_state (map_state table.old) (on_shard shard packets.now)) }
{
    let mut dones = Row::new(alloc);
    for packet in packets {
        let more = step_if_named(alloc, shard, table, packet)?;
        add_all(&mut dones, more)?;
    }
    Ok(dones)
}
