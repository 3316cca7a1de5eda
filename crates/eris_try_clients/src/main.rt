//! Hands steps to the two clients, 0 and 1, of a system of one shard that has one replica. The lines:
//!
//! - `new`: both clients begin anew.
//! - `CLIENT submit read`, `CLIENT submit general`: the client submits a read of a key, or a general transaction that
//!   sets the key. It prints the transaction's number.
//! - `CLIENT retry NUMBER`: it asks again for its transaction of this number.
//! - `1 abort`: client 1 asks for the abort of client 0's first transaction, which is general.
//! - `CLIENT receive HEX`: it takes these bytes.
//! - `CLIENT step HEX`: it takes the message that these bytes spell.
//! - `CLIENT ?`: prints what its calls tell of it.
//!
//! Of each step it prints how many messages are sent, and of those that take messages, what happened. `new` and any
//! other line are printed as they are.
#![tactic(auto)]

mod clients;
mod making;
mod steps;

use clients::Clients;

fn main(rt: HostRuntime) -> anyhow::Result<()> {
    let mut clients = Clients::new(rt.alloc())?;
    for line in rt.lines(rt.alloc()) {
        let line = line?;
        let told = clients.tell(line.as_str())?;
        println!(rt; "{told}")?;
    }
    Ok(())
}
