//! Reads and judges reports. A row of the input is a word and lines, with ` | ` between each two
//! lines; in a line `~` stands for CR.
//!
//! - `with LINE | LINE ..` puts these lines into a report of one replica, behind its first two
//!   lines and before the line of the replica; so the first of them is line 3.
//! - `text LINE | LINE ..` has these lines alone, and `text` alone has none.
//! - `open LINE | LINE ..` has them without the LF at the end.
//!
//! Printed is what the bytes are due, the number of the status and the text; and what comes of
//! reading them: `a report` where they are one and printing it gives them again, `another text`
//! where it doesn't, or `bad at L`. Any other row is printed as it is.
#![tactic(auto)]

mod rows;
mod telling;

use eris_check::bytes_are_judged;
use eris_check_run::ranged_reports_pass;
use rows::{open, text, with};
use std::alloc::Global;
use telling::judged;

fn main(rt: HostRuntime) -> anyhow::Result<()> {
    bytes_are_judged();
    ranged_reports_pass();
    for row in rt.lines(rt.alloc()) {
        let row = row?;
        let told = told_of(rt.alloc(), row.as_str())?;
        println!(rt; "{told}")?;
    }
    Ok(())
}

fn told_of(alloc: Global, row: &str) -> anyhow::Result<String> {
    match row.split_once(' ') {
        Some(("with", lines)) => judged(alloc, with(alloc, lines)?.as_bytes()),
        Some(("text", lines)) => judged(alloc, text(alloc, lines)?.as_bytes()),
        Some(("open", lines)) => judged(alloc, open(alloc, lines)?.as_bytes()),
        None if row == "text" => judged(alloc, b""),
        _ => Ok(format!(in alloc; "{row}")?),
    }
}
