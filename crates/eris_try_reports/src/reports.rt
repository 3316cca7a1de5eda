use crate::history::event;
use crate::order::order_line;
use crate::replicas::{is_copied, replica};
use crate::words::{count, name};
use anyhow::{Context, bail};
use eris_base::{Config, Epoch, NoMemory, Row};
use eris_event::{ReplicaLine, Report};
use eris_report::print_report;
use std::alloc::{AllocError, Global};

/// The comments of a block of lines.
pub(crate) fn comments(alloc: Global, block: &str) -> Result<String, AllocError> {
    let mut told = String::new(alloc);
    for line in block.lines() {
        if line.starts_with('#') {
            told.push_str(line)?;
            told.push('\n')?;
        }
    }
    Ok(told)
}

/// The text of the report of a block of lines, and whether its replicas' lines are equal to their copies.
pub(crate) fn report(alloc: Global, block: &str) -> anyhow::Result<String> {
    let mut report = empty(alloc, block)?;
    for line in block.lines() {
        put(alloc, &mut report, line)?;
    }
    tell(alloc, &report)
}

fn tell(alloc: Global, report: &Report) -> anyhow::Result<String> {
    let bytes = print_report(alloc, report)?;
    let text = str::from_utf8(bytes.as_slice())?;
    let copied = are_copied(alloc, report.replicas.as_slice())?;
    Ok(format!(in alloc; "{text}copied: {copied}\n")?)
}

fn are_copied(alloc: Global, lines: &[ReplicaLine]) -> Result<bool, NoMemory> {
    for line in lines {
        if !is_copied(alloc, line)? {
            return Ok(false);
        }
    }
    Ok(true)
}

/// The report with its counts, and with nothing else yet.
fn empty(alloc: Global, block: &str) -> anyhow::Result<Report> {
    let counts = after(block, "counts ")?;
    Ok(Report {
        config: config(after(block, "config ")?)?,
        history: Row::new(alloc),
        order: Row::new(alloc),
        replicas: Row::new(alloc),
        current: Epoch(count(counts, 0)?),
        target: Epoch(count(counts, 1)?),
        found: count(counts, 2)?,
        dropped: count(counts, 3)?,
        sent: count(counts, 4)?,
    })
}

/// What follows the start in the first line that has it.
fn after<'a>(block: &'a str, start: &str) -> anyhow::Result<&'a str> {
    for line in block.lines() {
        if let Some(rest) = line.strip_prefix(start) {
            return Ok(rest);
        }
    }
    bail!("no line `{start}..`")
}

fn config(text: &str) -> anyhow::Result<Config> {
    Ok(Config::new(name(text, 0)?, name(text, 1)?, name(text, 2)?)?)
}

/// Puts the line's part into the report.
fn put(alloc: Global, report: &mut Report, line: &str) -> anyhow::Result<()> {
    let (kind, said) = line.split_once(' ').context("a line of one word")?;
    match kind {
        "#" | "config" | "counts" => (),
        "order" => report.order.push(order_line(alloc, said)?)?,
        "replica" => report.replicas.push(replica(said)?)?,
        _ => report.history.push(event(alloc, kind, said)?)?,
    }
    Ok(())
}
