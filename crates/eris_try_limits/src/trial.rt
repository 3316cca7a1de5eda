use eris_base::Row;
use eris_cmd::eris_call;
use eris_stream::{MemSink, MemSource, Sink, Source, SureSink, SureSource};
use std::alloc::{AllocError, Global};

/// How many bytes a read gives, and a write takes, at most.
const CHUNK: usize = 4096;

/// How many written bytes are printed at most.
const TOLD_MOST: usize = 100;

/// Does what the word asks with the text, and tells the number of the status and what was written.
pub(crate) fn run(alloc: Global, word: &str, text: String) -> anyhow::Result<String> {
    let bytes = Row::from_vec(text.into_bytes());
    let mut source = MemSource::new(bytes, CHUNK, Row::new(alloc));
    let mut sink = MemSink::new(alloc, CHUNK, Row::new(alloc));
    let status = call(alloc, word, &mut source, &mut sink)?;
    let written = String::from_utf8_lossy(alloc, sink.taken())?;
    Ok(tell(alloc, status, written.as_str())?)
}

/// The same, from a source that gives as much as is read for to a sink that takes all.
pub(crate) fn run_at_once(alloc: Global, word: &str, text: String) -> anyhow::Result<String> {
    let mut source = SureSource::new(Row::from_vec(text.into_bytes()));
    let mut sink = SureSink::new(alloc);
    let status = call(alloc, word, &mut source, &mut sink)?;
    let written = String::from_utf8_lossy(alloc, sink.taken())?;
    Ok(tell(alloc, status, written.as_str())?)
}

/// The number of the status of the program with this word alone.
fn call<S: Source, K: Sink>(
    alloc: Global,
    word: &str,
    source: &mut S,
    sink: &mut K,
) -> Result<u8, AllocError> {
    let words = [String::from_str(alloc, word)?];
    Ok(eris_call(alloc, words.as_slice(), source, sink).number())
}

fn tell(alloc: Global, status: u8, written: &str) -> Result<String, AllocError> {
    let first = written.lines().next().unwrap_or("");
    match written.lines().find(|line| line.starts_with("sent ")) {
        Some(sent) => format!(in alloc; "status {status}, {first}, {sent}"),
        None if written.len() > TOLD_MOST => {
            format!(in alloc; "status {status}, {first}, {} bytes", written.len())
        }
        None => format!(in alloc; "status {status}, {written:?}"),
    }
}
