//! Reads lines of scripts and writes them again. A line `header LINE` prints the version and the sizes that the
//! header LINE says. A line `1 LINE` or `2 LINE` prints what LINE says in that version of the script: its event
//! as a line of version 1, ` = `, and as a line of version 2, with the number of times where it is done more
//! often; or `nothing`. Where LINE is refused the reason is printed. A line `event-1 LINE` or `event-2 LINE`
//! prints that event with the names of its fields, and whether its copy is the same.
//!
//! A line `number LIMIT WORD` prints the number up to LIMIT that WORD writes, or `no number`. A line
//! `decimal NUMBER NUMBER ..` prints the digits of these numbers, one after the other. A line `reasons` prints the
//! name of each reason for which a line is refused. Any other line is printed as it is.
#![tactic(auto)]

mod reading;
mod spelling;

use eris_grammar::every_line_is_read_as_spelled;
use reading::{event, header, line};
use spelling::{decimals, number, reasons};
use std::alloc::Global;

fn main(rt: HostRuntime) -> anyhow::Result<()> {
    every_line_is_read_as_spelled();
    for text in rt.lines(rt.alloc()) {
        let text = text?;
        let told = told_of(rt.alloc(), text.as_str())?;
        println!(rt; "{told}")?;
    }
    Ok(())
}

fn told_of(alloc: Global, text: &str) -> anyhow::Result<String> {
    match text.split_once(' ') {
        Some(("header", said)) => header(alloc, said),
        Some(("1", said)) => line(alloc, 1, said),
        Some(("2", said)) => line(alloc, 2, said),
        Some(("event-1", said)) => event(alloc, 1, said),
        Some(("event-2", said)) => event(alloc, 2, said),
        Some(("number", said)) => number(alloc, said),
        Some(("decimal", said)) => decimals(alloc, said),
        None if text == "reasons" => reasons(alloc),
        _ => Ok(format!(in alloc; "{text}")?),
    }
}
