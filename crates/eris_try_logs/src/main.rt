//! Tells a part of epoch 5 and shard 0 what happens, line by line. A line has steps, with ` ; `
//! between each two. A stamp is `0:N`, or `0:N 1:M` where it names shard 1 too.
//!
//! - `hold C STAMP`: the packet of client C with this stamp is held.
//! - `temp S:N`, `dropped S:N`: the place is dropped for a time, or for good.
//! - `found STAMP`: the places of the stamp are found.
//!
//! Printed are the entries of the numbers 1 to 5 (`t` a packet, `d` dropped, `-` a gap), the
//! length, and the greatest number up to 9 to which the part covers. So it is for these lines too:
//!
//! - `new`: a new part begins.
//! - `merge STEP ; STEP ..`: the part that took just these steps is merged into this one, twice.
//!
//! Other lines ask:
//!
//! - `holder S:N` prints the number of the packet that has the place.
//! - `client N` prints the client of the packet that is held at the number.
//! - `same STEP ; STEP ..` prints whether the part that took just these steps is the same.
//! - `copy` prints whether a copy is the same.
//! - `lists` prints how many items each list has, and whether a part made of them is the same.
//!
//! A line that starts with `# ` is printed as it is.
#![tactic(auto)]

mod parts;
mod steps;
mod telling;

use parts::new_part;
use telling::tell;

fn main(rt: HostRuntime) -> anyhow::Result<()> {
    let mut part = new_part(rt.alloc());
    for line in rt.lines(rt.alloc()) {
        let line = line?;
        let told = tell(rt.alloc(), &mut part, line.as_str())?;
        println!(rt; "{told}")?;
    }
    Ok(())
}
