//! Runs scripts that go to the limits: as long as a script may be, as many packets sent as may be, as many bytes
//! sent as may be, and one more of each; migrates a script as long as may be, and judges a text as long as a report
//! may be, and one byte more. Prints of each run the number of its status, and all that it wrote, but of a report
//! only the first line and the line `sent`, and of another long text only the first line and its length. The scripts
//! that are as long as may be, and longer, are also run at once, from and to streams that give and take as much as
//! they are asked for.
#![tactic(auto)]

mod scripts;
mod trial;

use scripts::{commented, dashes, retried, sixteen_puts};
use std::alloc::Global;
use trial::{run, run_at_once};

fn main(rt: HostRuntime) -> anyhow::Result<()> {
    let alloc = rt.alloc();
    for length in [4_194_304, 4_194_305] {
        let told = run(alloc, "run", commented(alloc, length)?)?;
        println!(rt; "{length} bytes: {told}")?;
        let told = run_at_once(alloc, "run", commented(alloc, length)?)?;
        println!(rt; "{length} bytes at once: {told}")?;
        let told = run_at_once(alloc, "migrate", commented(alloc, length)?)?;
        println!(rt; "{length} bytes to migrate: {told}")?;
    }
    for length in [67_108_864, 67_108_865] {
        let told = run_at_once(alloc, "check", dashes(alloc, length)?)?;
        println!(rt; "{length} bytes to judge: {told}")?;
    }
    for retries in [262_143, 262_144] {
        let told = try_get(alloc, retries)?;
        println!(rt; "a get and {retries} retries: {told}")?;
    }
    for retries in [150_467, 150_468] {
        let told = try_puts(alloc, retries)?;
        println!(rt; "sixteen puts and {retries} retries: {told}")?;
    }
    Ok(())
}

fn try_get(alloc: Global, retries: u32) -> anyhow::Result<String> {
    let script = retried(alloc, "get 0/a", retries)?;
    run(alloc, "run", script)
}

fn try_puts(alloc: Global, retries: u32) -> anyhow::Result<String> {
    let puts = sixteen_puts(alloc)?;
    let script = retried(alloc, puts.as_str(), retries)?;
    run(alloc, "run", script)
}
