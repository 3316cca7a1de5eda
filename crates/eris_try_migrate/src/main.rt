//! Migrates scripts, and runs each script that is migrated and what came of it. Standard input has
//! the cases, with an empty line between each two. The lines of a case:
//!
//! - `# TEXT`: a comment.
//! - `case NAME`.
//! - `| LINE`: a line of the script. Once in it `<DIGITS>` stands for the bytes of these
//!   hexadecimal digits.
//! - `no last LF`: the last line of the script does not end.
//! - `gives STATUS`: the number of the status that is due.
//! - after that, `| LINE`: a line of the text that is due, and `no last LF`: the last of these does
//!   not end.
//!
//! Printed for each case: its name, and `as told` or what came in place of that; and of a script
//! that is migrated, how both runs end, if they have the same status and write the same bytes: the
//! number of the status, and the first line that is written. The program adds cases of its own,
//! which are long.
#![tactic(auto)]

mod cases;
mod limits;
mod trial;

use cases::read_case;
use limits::{case_of_length, case_of_retries};
use std::io;
use trial::try_case;

fn main(rt: HostRuntime) -> anyhow::Result<()> {
    let alloc = rt.alloc();
    let text = io::read_to_string(alloc, rt.stdin())?;
    for block in text.as_str().split("\n\n") {
        let case = read_case(alloc, block)?;
        let told = try_case(alloc, &case)?;
        println!(rt; "{}: {told}", case.name)?;
    }
    for length in [4_194_304, 4_194_305] {
        let case = case_of_length(alloc, length)?;
        let told = try_case(alloc, &case)?;
        println!(rt; "{}: {told}", case.name)?;
    }
    let case = case_of_retries(alloc, 262_144)?;
    let told = try_case(alloc, &case)?;
    println!(rt; "{}: {told}", case.name)?;
    Ok(())
}
