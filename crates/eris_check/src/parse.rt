ghost use Rattle.std.specs.Prelude.{◌<◌, ◌+◌, length, IfErr, IfOk};
ghost use Rattle.eris_check.specs.FullLines.{full_lines};
ghost use Rattle.eris_check.specs.ReportTexts.{IsTextOf, Tells};
ghost use Rattle.eris_check.specs.TextReading.{Reads, behind_title, body_read, text_read};

use crate::cutting::first_full_line;
use crate::draft::Draft;
use crate::fault::ReportFault;
use crate::head_line::{config_in, is_title};
use eris_event::Report;
use eris_words::LineFault;
use std::alloc::Global;

// Reads the lines behind the config, of which the first has this number.
fn read_body(alloc: Global, draft: Draft, number: u32, bytes: &[u8]) -> Result<Report, ReportFault>
    requires { number + length bytes.now < 4294967296 }
    ensures { Reads result (body_read number draft (full_lines bytes.now)) }
{
    let mut draft = draft;
    let mut rest = bytes;
    let mut line = number;
    while !rest.is_empty() {
        let (first, more) = first_full_line(rest);
        match draft.read(alloc, first) {
            Ok(()) => {
                rest = more;
                line += 1;
            }
            Err(LineFault::Bad(_)) => return Err(ReportFault::Bad { line }),
            Err(LineFault::NoMemory) => return Err(ReportFault::NoMemory),
        }
    }
    if draft.is_whole() {
        Ok(draft.report)
    } else {
        Err(ReportFault::Bad { line })
    }
}

// Reads the lines behind the first one.
fn read_behind_title(alloc: Global, bytes: &[u8]) -> Result<Report, ReportFault>
    requires { length bytes.now < 4294967294 }
    ensures { Reads result (behind_title (full_lines bytes.now)) }
{
    if bytes.is_empty() {
        return Err(ReportFault::Bad { line: 2 });
    }
    let (second, rest) = first_full_line(bytes);
    match config_in(second) {
        Ok(config) => read_body(alloc, Draft::new(alloc, config)?, 3, rest),
        Err(LineFault::Bad(_)) => Err(ReportFault::Bad { line: 2 }),
        Err(LineFault::NoMemory) => Err(ReportFault::NoMemory),
    }
}

fn read_text(alloc: Global, bytes: &[u8]) -> Result<Report, ReportFault>
    requires { length bytes.now < 4294967295 }
    ensures { Reads result (text_read (full_lines bytes.now)) }
{
    if bytes.is_empty() {
        return Err(ReportFault::Bad { line: 1 });
    }
    let (first, rest) = first_full_line(bytes);
    if is_title(first) {
        read_behind_title(alloc, rest)
    } else {
        Err(ReportFault::Bad { line: 1 })
    }
}

/// The report in range of which the bytes, fewer than 4,294,967,295, are the text; docs/SCRIPT.md
/// has the grammar and the ranges, under "Reports that are read". `print_report` of it gives the
/// bytes again. The time is linear in the bytes, and no word of them is copied.
///
/// # Errors
///
/// `Bad` exactly where the bytes are no report text, with their first misfit: the number of the
/// first line with which the lines up to it begin no report text. A line goes up to its LF, and
/// what stands behind the last LF is a line too. Where all lines begin a report text, the number is
/// one more than that of the lines. `NoMemory` where an allocation was refused.
pub fn parse_report(alloc: Global, bytes: &[u8]) -> Result<Report, ReportFault>
    requires { length bytes.now < 4294967295 }
    ensures ok { IfOk result (λ report. IsTextOf report bytes.now) }
    ensures err { IfErr result (λ fault. Tells bytes.now fault) }
{
    read_text(alloc, bytes)
}
