//! Runs the whole program from sources in memory to sinks in memory, and compares what it answers and writes
//! with what it must. Standard input has the cases, with an empty line between each two. The lines of a case:
//!
//! - `# TEXT`: a comment.
//! - `case NAME`.
//! - `words W W ..`: the words of the command line. Without this line there is one, `run`.
//! - `| LINE`: a line of the script.
//! - `CR LF`: each line of the script ends so. Without it each ends in LF.
//! - `no last LF`: the last line of the script does not end.
//! - `fails at read N`, `fails at write N`: the call of that number fails, counted from 1.
//! - `fails at each read`, `fails at each write`: the case is run with the first failing, then with the
//!   second, and so on until it ends with no call failed.
//! - `gives STATUS`: the number of the status that is due.
//! - after that, `| LINE`: a line that must be written, and `no last LF`: the last of these does not end.
//!
//! Printed for each case: its name, the faults that were tried in turn, and `as told` or what differs.
#![tactic(auto)]

mod cases;
mod comparing;
mod trial;
mod turns;

use cases::read_case;
use std::io;
use turns::try_case;

fn main(rt: HostRuntime) -> anyhow::Result<()> {
    let alloc = rt.alloc();
    let text = io::read_to_string(alloc, rt.stdin())?;
    for block in text.as_str().split("\n\n") {
        let case = read_case(alloc, block)?;
        let told = try_case(alloc, &case)?;
        println!(rt; "{}: {told}", case.name)?;
    }
    Ok(())
}
