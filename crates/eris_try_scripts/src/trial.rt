use crate::cases::{Call, Case};
use eris_base::{NoMemory, Row};
use eris_cmd::eris_call;
use eris_stream::{MemSink, MemSource};
use std::alloc::Global;

/// How many bytes a read gives at most.
const READ_MOST: usize = 7;

/// How many bytes a write takes at most.
pub(crate) const WRITE_MOST: usize = 5;

/// How a call of the program ended.
#[derive(Debug, Drop)]
pub(crate) struct Ending {
    pub(crate) status: u8,
    /// How many bytes the source still had.
    pub(crate) unread: usize,
    /// What the sink took.
    pub(crate) written: String,
}

/// Runs the case, with this call failing.
pub(crate) fn run(
    alloc: Global,
    case: &Case,
    fault: Option<(Call, u32)>,
) -> Result<Ending, NoMemory> {
    let mut script = Row::new(alloc);
    script.append(case.script.as_bytes())?;
    let mut source = MemSource::new(script, READ_MOST, numbers(alloc, fault, Call::Read)?);
    let mut sink = MemSink::new(alloc, WRITE_MOST, numbers(alloc, fault, Call::Write)?);
    let status = call(alloc, case, &mut source, &mut sink);
    Ok(Ending {
        status,
        unread: source.left().len(),
        written: String::from_utf8_lossy(alloc, sink.taken())?,
    })
}

/// The number of the status.
fn call(alloc: Global, case: &Case, source: &mut MemSource, sink: &mut MemSink) -> u8 {
    eris_call(alloc, case.words.as_slice(), source, sink).number()
}

/// The numbers of the calls of this kind that fail.
fn numbers(alloc: Global, fault: Option<(Call, u32)>, call: Call) -> Result<Row<u32>, NoMemory> {
    let mut numbers = Row::new(alloc);
    if let Some((kind, number)) = fault
        && kind == call
    {
        numbers.push(number)?;
    }
    Ok(numbers)
}
