use anyhow::{Context, bail, ensure};
use std::alloc::{AllocError, Global};

/// A kind of call on a stream.
#[derive(Clone, Copy, Debug, PartialEq, Eq)]
pub(crate) enum Call {
    Read,
    Write,
}

/// Which calls fail, by their numbers from 1.
#[derive(Clone, Copy, Debug, PartialEq, Eq)]
pub(crate) enum Failing {
    Nothing,
    One(Call, u32),
    EachInTurn(Call),
}

/// What the program is given, and what it must answer and write.
#[derive(Debug, Drop)]
pub(crate) struct Case {
    pub(crate) name: String,
    pub(crate) words: Vec<String>,
    pub(crate) script: String,
    pub(crate) failing: Failing,
    pub(crate) status: u8,
    pub(crate) report: String,
}

/// The case of a block of lines.
pub(crate) fn read_case(alloc: Global, block: &str) -> anyhow::Result<Case> {
    ensure!(block.lines().all(is_known), "a line of no kind in {block}");
    let (given, due) = block.split_once("\ngives ").context("no `gives`")?;
    let (status, report) = due.split_once('\n').unwrap_or((due, ""));
    let name = after(given, "case ").context("no `case`")?;
    Ok(Case {
        name: String::from_str(alloc, name)?,
        words: words_of(alloc, given)?,
        script: text_of(alloc, given)?,
        failing: failing_of(given)?,
        status: status.parse::<u8>().context("the number of a status")?,
        report: text_of(alloc, report)?,
    })
}

fn is_known(line: &str) -> bool {
    let starts = [
        "#",
        "case ",
        "words",
        "| ",
        "CR LF",
        "no last LF",
        "fails at ",
        "gives ",
    ];
    starts.iter().any(|start| line.starts_with(*start))
}

/// What follows the start in the first line that has it.
fn after<'a>(lines: &'a str, start: &str) -> Option<&'a str> {
    for line in lines.lines() {
        if let Some(rest) = line.strip_prefix(start) {
            return Some(rest);
        }
    }
    None
}

fn words_of(alloc: Global, given: &str) -> Result<Vec<String>, AllocError> {
    let mut words = Vec::new(alloc);
    for word in after(given, "words").unwrap_or("run").split_whitespace() {
        words.push(String::from_str(alloc, word)?)?;
    }
    Ok(words)
}

/// The lines that begin with `| `, without that, each ended.
fn text_of(alloc: Global, lines: &str) -> Result<String, AllocError> {
    let end = if after(lines, "CR LF").is_some() {
        "\r\n"
    } else {
        "\n"
    };
    let mut text = String::new(alloc);
    for line in lines.lines() {
        if let Some(told) = line.strip_prefix("| ") {
            text.push_str(told)?;
            text.push_str(end)?;
        }
    }
    if after(lines, "no last LF").is_some() {
        let _ = text.pop();
    }
    Ok(text)
}

fn failing_of(given: &str) -> anyhow::Result<Failing> {
    match after(given, "fails at ") {
        None => Ok(Failing::Nothing),
        Some("each read") => Ok(Failing::EachInTurn(Call::Read)),
        Some("each write") => Ok(Failing::EachInTurn(Call::Write)),
        Some(told) => failing_once(told),
    }
}

fn failing_once(told: &str) -> anyhow::Result<Failing> {
    match told.split_once(' ') {
        Some(("read", number)) => Ok(Failing::One(Call::Read, number.parse::<u32>()?)),
        Some(("write", number)) => Ok(Failing::One(Call::Write, number.parse::<u32>()?)),
        _ => bail!("`{told}` is no call that fails"),
    }
}
