use crate::cases::Case;
use eris_base::Row;
use std::alloc::{AllocError, Global};

/// How many bytes a script may have.
const INPUT_LIMIT: usize = 4_194_304;

const OLD: &str = "eris 1 1 0 1\n";

const NEW: &str = "eris 2 1 0 1\n";

/// A script that is a header and a comment, and has so many bytes.
pub(crate) fn case_of_length(alloc: Global, length: usize) -> Result<Case, AllocError> {
    let script = commented(alloc, OLD, length)?;
    let (status, text) = if length > INPUT_LIMIT {
        (7, String::from_str(alloc, "too large: input\n")?)
    } else {
        (0, commented(alloc, NEW, length)?)
    };
    Ok(Case {
        name: format!(in alloc; "{length} bytes")?,
        script: Row::from_vec(script.into_bytes()),
        status,
        text: Row::from_vec(text.into_bytes()),
    })
}

/// This header and a comment, which have so many bytes; at least those of a header and an empty
/// comment.
fn commented(alloc: Global, header: &str, length: usize) -> Result<String, AllocError> {
    let mut script = String::from_str(alloc, header)?;
    for _ in script.len()..length.saturating_sub(1) {
        script.push('#')?;
    }
    script.push('\n')?;
    Ok(script)
}

/// A script that submits a get, and then sends its request again so often.
pub(crate) fn case_of_retries(alloc: Global, retries: u32) -> Result<Case, AllocError> {
    let script = retried(alloc, OLD, "retry 0 1\n", retries)?;
    let text = retried(alloc, NEW, "retry 0.1\n", retries)?;
    Ok(Case {
        name: format!(in alloc; "a get and {retries} retries")?,
        script: Row::from_vec(script.into_bytes()),
        status: 0,
        text: Row::from_vec(text.into_bytes()),
    })
}

fn retried(alloc: Global, header: &str, retry: &str, retries: u32) -> Result<String, AllocError> {
    let mut script = format!(in alloc; "{header}submit 0 get 0/a\n")?;
    for _ in 0..retries {
        script.push_str(retry)?;
    }
    Ok(script)
}
