ghost use Rattle.std.specs.Prelude.{◌≡◌, ◌++◌, map, false, IfOk, OnOk};
ghost use Rattle.eris_locks.specs.LockTable.{run_dones, run_state};
ghost use Rattle.eris_locks.specs.Shards.{cut};

use crate::locks::Locks;
use eris_base::{NoMemory, Row};
use eris_locks::Done;
use eris_txn::Packet;
use std::alloc::Global;

/// Adds the answers at the end.
///
/// # Errors
///
/// [`NoMemory`] where an allocation was refused; some of them may have been added.
pub fn add_all(dones: &mut Row<Done>, more: Row<Done>) -> Result<(), NoMemory>
    ensures { OnOk result (dones.new ≡ dones.old ++ more) }
{
    for given in more.into_vec() {
        dones.push(given)?;
    }
    Ok(())
}

/// Steps a store, of whatever kind, with the packets, one after the other, and joins the answers in order. It
/// needs a store that isn't spent.
///
/// # Errors
///
/// [`NoMemory`] where an allocation was refused. Nothing is then said of the store.
pub fn run_locks<L: Locks>(
    alloc: Global,
    store: &mut L,
    packets: &[Packet],
) -> Result<Row<Done>, NoMemory>
    requires { L.spent store.old ≡ false }
    ensures dones { IfOk result (λ dones. dones ≡ run_dones (L.state store.old) (map (cut (L.shard store.old)) packets.now)) }
    ensures state { OnOk result (L.state store.new ≡ run_state (L.state store.old) (map (cut (L.shard store.old)) packets.now)) }
    ensures shard { L.shard store.new ≡ L.shard store.old }
    ensures spent { OnOk result (L.spent store.new ≡ false) }
{
    let mut dones = Row::new(alloc);
    for packet in packets {
        let more = store.step(packet)?;
        add_all(&mut dones, more)?;
    }
    Ok(dones)
}
