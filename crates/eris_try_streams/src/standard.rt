use crate::memory::told;
use eris_stream::{Failed, Sink, StdSink, StdSource, read_all, write_all};
use std::alloc::Global;
use std::io;
use std::io::{ErrorKind, Read, Write};

/// How many bytes are read at most.
const LIMIT: usize = 4;

pub(crate) fn reader(alloc: Global, text: &str) -> anyhow::Result<String> {
    let mut source = StdSource::new(text.as_bytes());
    let bytes = read_all(alloc, &mut source, LIMIT)?;
    told(alloc, bytes.as_slice())
}

/// Fails at each read.
#[derive(Drop)]
struct Broken;

impl Read for Broken {
    fn read(&mut self, _: &mut [u8]) -> io::Result<usize> {
        Err(io::Error::from(ErrorKind::Other))
    }
}

pub(crate) fn broken_reader(alloc: Global, text: &str) -> anyhow::Result<String> {
    let mut source = StdSource::new(text.as_bytes().chain(Broken));
    let end = read_all(alloc, &mut source, LIMIT).err();
    Ok(format!(in alloc; "{end:?}")?)
}

pub(crate) fn writer(alloc: Global, text: &str) -> anyhow::Result<String> {
    let mut written = Vec::new(alloc);
    write_over(&mut written, text.as_bytes())?;
    told(alloc, written.as_slice())
}

pub(crate) fn narrow(alloc: Global, text: &str) -> anyhow::Result<String> {
    let mut room = [0; 3];
    let end = write_over(room.as_mut_slice(), text.as_bytes());
    let taken = told(alloc, room.as_slice())?;
    Ok(format!(in alloc; "{end:?}, {taken}")?)
}

fn write_over<W: Write + Drop>(writer: W, text: &[u8]) -> Result<(), Failed> {
    let mut sink = StdSink::new(writer);
    let _ = sink.reserve(text.len());
    write_all(&mut sink, text)
}
