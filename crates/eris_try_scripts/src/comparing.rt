use crate::cases::Case;
use crate::trial::Ending;
use std::alloc::{AllocError, Global};

/// `as told` where the case ended as it must, and how many bytes were then not read; else what differs.
pub(crate) fn compare(alloc: Global, case: &Case, ending: &Ending) -> Result<String, AllocError> {
    if !is_as_told(case, ending) {
        return differing(alloc, case, ending);
    }
    if ending.unread == 0 {
        return String::from_str(alloc, "as told");
    }
    format!(in alloc; "as told, {} bytes unread", ending.unread)
}

fn is_as_told(case: &Case, ending: &Ending) -> bool {
    ending.status == case.status && ending.written.as_str() == case.report.as_str()
}

/// Both statuses, and the first line that differs.
fn differing(alloc: Global, case: &Case, ending: &Ending) -> Result<String, AllocError> {
    let (got, wanted) = (ending.written.as_str(), case.report.as_str());
    let at = same_lines(got, wanted);
    let (line, due) = (line_at(got, at), line_at(wanted, at));
    let (status, number) = (ending.status, at.saturating_add(1));
    format!(in alloc;
        "status {status}, due {}; line {number} `{line}`, due `{due}`",
        case.status
    )
}

/// How many lines at the start are the same.
fn same_lines(one: &str, other: &str) -> usize {
    one.split('\n')
        .zip(other.split('\n'))
        .take_while(|(line, due)| line == due)
        .count()
}

fn line_at<'a>(text: &'a str, at: usize) -> &'a str {
    text.split('\n').nth(at).unwrap_or("")
}
