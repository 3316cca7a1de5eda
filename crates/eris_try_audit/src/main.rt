//! Judges histories in orders, and runs transactions one after another. A line is a word and
//! lines of a report, with ` | ` between each two: events of a history, as `submit 0.1 add 0/a 5`,
//! and lines of an order, as `order 0.1 done 0 0:1`. A line of an order may end before its stamp,
//! which then is `0 0:1`; only stamps `0 0:N` are read.
//!
//! - `judge LINE | LINE ..` prints `yes`, or the rule that is broken and its line.
//! - `run LINE | LINE ..` prints for each line of the order what its transaction is answered, and
//!   after it the values of the keys 0/a and 1/b and the sum of all values.
//! - `compare LINE | LINE` copies the second of two lines of an order. It prints whether the copy
//!   is the same as the first, whether it is the same as the second, and whether its outcome is.
//!
//! Any other line is printed as it is.
#![tactic(auto)]

mod reading;
mod running;
mod txns;
mod verdicts;

use running::run;
use std::alloc::Global;
use verdicts::{compare, judge};

fn main(rt: HostRuntime) -> anyhow::Result<()> {
    for line in rt.lines(rt.alloc()) {
        let line = line?;
        let told = told_of(rt.alloc(), line.as_str())?;
        println!(rt; "{told}")?;
    }
    Ok(())
}

fn told_of(alloc: Global, line: &str) -> anyhow::Result<String> {
    match line.split_once(' ') {
        Some(("judge", items)) => judge(alloc, items),
        Some(("run", items)) => run(alloc, items),
        Some(("compare", items)) => compare(alloc, items),
        _ => Ok(format!(in alloc; "{line}")?),
    }
}
