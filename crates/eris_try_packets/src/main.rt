//! Runs the script on standard input and prints what its world keeps: of each sent packet the number and the
//! digits of its frame, and of the replicas 0 to 3 of shard 0 the transactions whose packets are settled.
#![tactic(auto)]

mod telling;

use anyhow::bail;
use eris_run::run_bytes;
use std::alloc::Global;
use std::io;
use telling::tell;

/// How many bytes a script has at most.
const LIMIT: usize = 4_194_304;

fn main(rt: HostRuntime) -> anyhow::Result<()> {
    let text = io::read_to_string(rt.alloc(), rt.stdin())?;
    let told = run(rt.alloc(), text.as_bytes())?;
    print!(rt; "{told}")?;
    Ok(())
}

fn run(alloc: Global, script: &[u8]) -> anyhow::Result<String> {
    if script.len() > LIMIT {
        bail!("too long for a script");
    }
    match run_bytes(alloc, script) {
        Ok(world) => tell(alloc, &world),
        Err(_) => bail!("no script, or no memory"),
    }
}
