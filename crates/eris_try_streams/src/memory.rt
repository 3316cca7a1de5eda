ghost use Rattle.std.specs.Prelude.{◌≡◌, IfOk};

use anyhow::Context;
use eris_base::{NoMemory, Row};
use eris_stream::{
    Failed, MemSink, MemSource, ReadEnd, Sink, SureSink, SureSource, read_all, write_all,
};
use std::alloc::Global;

/// `FAILING LIMIT TEXT`.
pub(crate) fn read(alloc: Global, words: &str) -> anyhow::Result<String> {
    let (failing, rest) = words.split_once(' ').context("no limit")?;
    let (limit, text) = rest.split_once(' ').context("no text")?;
    let failing = row(alloc, &[failing.parse::<u32>()?])?;
    let mut source = MemSource::new(row(alloc, text.as_bytes())?, 2, failing);
    let end = read_all(alloc, &mut source, limit.parse::<usize>()?).err();
    Ok(format!(in alloc; "{end:?}, {} left", source.left().len())?)
}

/// `FAILING TEXT`.
pub(crate) fn write(alloc: Global, words: &str) -> anyhow::Result<String> {
    let (failing, text) = words.split_once(' ').context("no text")?;
    let failing = row(alloc, &[failing.parse::<u32>()?])?;
    let mut sink = MemSink::new(alloc, 5, failing);
    sink.reserve(text.len())?;
    let _ = write_all(&mut sink, text.as_bytes());
    told(alloc, sink.taken())
}

pub(crate) fn pass_on(alloc: Global, text: &str) -> anyhow::Result<String> {
    let sink = passed_on(alloc, text.as_bytes())?;
    told(alloc, sink.taken())
}

/// That neither stream fails, nor that the text is too long, is proved.
fn passed_on(alloc: Global, text: &[u8]) -> Result<SureSink, NoMemory>
    ensures { IfOk result (λ sink. sink.taken ≡ text.now) }
{
    let mut source = SureSource::new(row(alloc, text)?);
    let bytes = match read_all(alloc, &mut source, text.len()) {
        Ok(bytes) => bytes,
        Err(ReadEnd::NoMemory) => return Err(NoMemory),
        Err(_) => unreachable!(),
    };
    let mut sink = SureSink::new(alloc);
    sink.reserve(bytes.len())?;
    match write_all(&mut sink, bytes.as_slice()) {
        Ok(()) => Ok(sink),
        Err(Failed) => unreachable!(),
    }
}

pub(crate) fn left(alloc: Global, text: &str) -> anyhow::Result<String> {
    let source = SureSource::new(row(alloc, text.as_bytes())?);
    told(alloc, source.left())
}

fn row<T: Copy>(alloc: Global, items: &[T]) -> Result<Row<T>, NoMemory>
    ensures { IfOk result (λ row. row ≡ items.now) }
{
    let mut row = Row::new(alloc);
    row.append(items)?;
    Ok(row)
}

/// The bytes as a text in brackets.
pub(crate) fn told(alloc: Global, bytes: &[u8]) -> anyhow::Result<String> {
    let text = str::from_utf8(bytes)?;
    Ok(format!(in alloc; "[{text}]")?)
}
