//! Hands packets to the lock store of shard 0. A line `packet NUMBER@PLACE for ASKER: BODY` is the packet of that
//! transaction of client 0, at this place of the shard, whose replies the client ASKER gets. It prints the
//! answers that the store gives to it, or `no answer`. Of an answer it prints the transaction's number, the
//! place of the packet whose step gave it, the phase, `late` where its packet had waited, the asker, and what it
//! says. The bodies:
//!
//! - `get KEY`, `del KEY`, `put KEY VALUE`, `add KEY VALUE`: an independent transaction of one operation.
//! - `lock KEY KEY ..` and `share KEY KEY ..`: the first half of a general transaction, which locks these keys
//!   alone, or beside other readers.
//! - `commit KEY KEY .. ; set KEY VALUE ; ..`: the second half that frees these keys and makes these writes.
//! - `abort KEY KEY ..`: the second half that frees these keys and writes nothing.
//!
//! Further lines:
//!
//! - `new` goes on with an empty store, and forgets the packets.
//! - `together` hands all packets since `new` to an empty store in one call, and prints all its answers.
//! - `value KEY` prints the key's value in the store.
//! - `entries` prints the keys that have a value in the store, with it.
//! - `kept NUMBER PHASE` prints the answer that the store keeps for the transaction in this phase.
//! - `copy` makes a copy of the store, and `other` goes on with the copy, or back with the store.
//! - `spent` prints whether the store is spent.
//!
//! `new`, `copy`, `other` and any other line are printed as they are.
#![tactic(auto)]

mod answers;
mod packets;
mod table;

use table::Table;

fn main(rt: HostRuntime) -> anyhow::Result<()> {
    let mut table = Table::new(rt.alloc());
    for line in rt.lines(rt.alloc()) {
        let line = line?;
        let told = table.tell(line.as_str())?;
        println!(rt; "{told}")?;
    }
    Ok(())
}
