use std::alloc::{AllocError, Global};

/// The lines of a report of one replica before its history, and those behind its order.
const HEAD: &str = "eris report 1\nconfig 1 0 1\n";

const FOOT: &str = "replica 0 0 normal epoch 0 view 0 held 1 length 1 settled 0
coordinator epoch 0 target 0 found 0 dropped 0
sent 3
end
";

/// The lines within a report of one replica.
pub(crate) fn with(alloc: Global, lines: &str) -> Result<String, AllocError> {
    let lines = text(alloc, lines)?;
    format!(in alloc; "{HEAD}{lines}{FOOT}")
}

/// The lines, each with its LF.
pub(crate) fn text(alloc: Global, lines: &str) -> Result<String, AllocError> {
    let mut text = open(alloc, lines)?;
    text.push('\n')?;
    Ok(text)
}

/// The lines, the last of them without its LF.
pub(crate) fn open(alloc: Global, lines: &str) -> Result<String, AllocError> {
    let mut text = String::new(alloc);
    for (number, line) in lines.split(" | ").enumerate() {
        if number > 0 {
            text.push('\n')?;
        }
        put_line(&mut text, line)?;
    }
    Ok(text)
}

/// Adds a line, in which `~` stands for CR.
fn put_line(text: &mut String, line: &str) -> Result<(), AllocError> {
    for letter in line.chars() {
        text.push(if letter == '~' { '\r' } else { letter })?;
    }
    Ok(())
}
