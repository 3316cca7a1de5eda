use std::alloc::{AllocError, Global};

const HEADER: &str = "eris 1 1 0 1\n";

/// A header and a comment, which have so many bytes; at least those of a header and an empty comment.
pub(crate) fn commented(alloc: Global, length: usize) -> Result<String, AllocError> {
    let mut script = String::from_str(alloc, HEADER)?;
    for _ in script.len()..length.saturating_sub(1) {
        script.push('#')?;
    }
    script.push('\n')?;
    Ok(script)
}

/// So many dashes, which are no report.
pub(crate) fn dashes(alloc: Global, length: usize) -> Result<String, AllocError> {
    let mut text = String::new(alloc);
    for _ in 0..length {
        text.push('-')?;
    }
    Ok(text)
}

/// A script that submits these operations, and then sends their request again so often.
pub(crate) fn retried(alloc: Global, ops: &str, retries: u32) -> Result<String, AllocError> {
    let mut script = format!(in alloc; "{HEADER}submit 0 {ops}\n")?;
    for _ in 0..retries {
        script.push_str("retry 0 1\n")?;
    }
    Ok(script)
}

/// As many operations as there may be, with a name as long as may be.
pub(crate) fn sixteen_puts(alloc: Global) -> Result<String, AllocError> {
    let mut ops = String::from_str(alloc, "put 0/aaaaaaaaaaaaaaaa 1")?;
    for _ in 1..16 {
        ops.push_str(" ; put 0/aaaaaaaaaaaaaaaa 1")?;
    }
    Ok(ops)
}
