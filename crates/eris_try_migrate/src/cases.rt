use anyhow::{Context, ensure};
use eris_base::Row;
use std::alloc::Global;

/// A script, and what is due for it where it is migrated.
#[derive(Debug, Drop)]
pub(crate) struct Case {
    pub(crate) name: String,
    pub(crate) script: Row<u8>,
    /// The number of the status.
    pub(crate) status: u8,
    pub(crate) text: Row<u8>,
}

/// The case of a block of lines.
pub(crate) fn read_case(alloc: Global, block: &str) -> anyhow::Result<Case> {
    ensure!(block.lines().all(is_known), "a line of no kind in {block}");
    let (given, due) = block.split_once("\ngives ").context("no `gives`")?;
    let (status, text) = due.split_once('\n').unwrap_or((due, ""));
    let name = name_of(given).context("no `case`")?;
    Ok(Case {
        name: String::from_str(alloc, name)?,
        script: bytes_of(alloc, given)?,
        status: status.parse::<u8>().context("the number of a status")?,
        text: bytes_of(alloc, text)?,
    })
}

fn is_known(line: &str) -> bool {
    let starts = ["#", "case ", "| ", "no last LF", "gives "];
    starts.iter().any(|start| line.starts_with(*start))
}

fn name_of(lines: &str) -> Option<&str> {
    for line in lines.lines() {
        if let Some(name) = line.strip_prefix("case ") {
            return Some(name);
        }
    }
    None
}

/// The bytes of the lines that begin with `| `, without that, an LF between each two; and one
/// behind the last, unless it does not end.
fn bytes_of(alloc: Global, lines: &str) -> anyhow::Result<Row<u8>> {
    let mut bytes = Row::new(alloc);
    let mut is_open = false;
    for line in lines.lines() {
        if let Some(told) = line.strip_prefix("| ") {
            if is_open {
                bytes.push(b'\n')?;
            }
            put_line(alloc, &mut bytes, told)?;
            is_open = true;
        }
    }
    if is_open && !lines.lines().any(|line| line == "no last LF") {
        bytes.push(b'\n')?;
    }
    Ok(bytes)
}

/// Adds a line, with the bytes of the digits in it.
fn put_line(alloc: Global, bytes: &mut Row<u8>, line: &str) -> anyhow::Result<()> {
    let (front, rest) = line.split_once('<').unwrap_or((line, ">"));
    let (digits, back) = rest.split_once('>').context("a `<` without `>`")?;
    let between = hex::decode(alloc, digits)?;
    bytes.append(front.as_bytes())?;
    bytes.append(between.as_slice())?;
    bytes.append(back.as_bytes())?;
    Ok(())
}
