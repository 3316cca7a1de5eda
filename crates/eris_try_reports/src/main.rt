//! Prints reports. Standard input has their parts, with an empty line between each two reports. A TXN is
//! `CLIENT.NUMBER`, a VALUE a number or `None`, an ANSWER `ops A A ..` with `Absent`, `Done`, `Yes`, `No` or a
//! number for each A, `values VALUE VALUE ..`, `Committed` or `Aborted`. The lines of a report:
//!
//! - `# TEXT`: a comment.
//! - `config SHARDS F CLIENTS`: the sizes of the system.
//! - `submit TXN LINE`: the transaction of LINE, of version 1 of scripts, was submitted.
//! - `read TXN VALUE VALUE ..`: a general transaction learned the values of its keys.
//! - `answer TXN ANSWER`: its client got its answer.
//! - `told CLIENT TXN ANSWER`: another client was told the outcome.
//! - `order TXN OUTCOME EPOCH at SHARD:NUMBER SHARD:NUMBER ..`: a transaction in the order, with its stamp.
//! - `replica SHARD REPLICA STATE EPOCH VIEW HELD LENGTH SETTLED`: what a replica does, and its counts.
//! - `counts CURRENT TARGET FOUND DROPPED SENT`: the coordinator's epoch, the one that it goes to, its counts of
//!   found and of dropped packets, and how many packets were sent.
//!
//! Printed are the comments, the text of the report, and whether the lines of its replicas and their states are
//! equal to their copies.
#![tactic(auto)]

mod history;
mod order;
mod replicas;
mod reports;
mod words;

use reports::{comments, report};
use std::io;

fn main(rt: HostRuntime) -> anyhow::Result<()> {
    let alloc = rt.alloc();
    let text = io::read_to_string(alloc, rt.stdin())?;
    for block in text.as_str().split("\n\n") {
        let told = comments(alloc, block)?;
        print!(rt; "{told}")?;
        let told = report(alloc, block)?;
        print!(rt; "{told}")?;
    }
    Ok(())
}
