ghost use Rattle.std.specs.Prelude.{◌≡◌, ◌⊎◌};

use eris_base::{Dup, NoMemory, Same};
use eris_event::Event;
use eris_grammar::{Line, parse_header, parse_line, print_event};
use eris_words::LineFault;
use std::alloc::Global;

/// What the header says, or the reason for which it is refused.
pub(crate) fn header(alloc: Global, text: &str) -> anyhow::Result<String> {
    match parse_header(text.as_bytes()) {
        Ok(header) => {
            let (version, config) = (header.version, header.config);
            let (shards, f, clients) = (config.shards(), config.f(), config.clients());
            Ok(format!(in alloc; "version {version}: {shards} shards, f {f}, {clients} clients")?)
        }
        Err(reason) => Ok(format!(in alloc; "{}", reason.name())?),
    }
}

/// What the line says in this version, or the reason for which it is refused.
pub(crate) fn line(alloc: Global, version: u8, text: &str) -> anyhow::Result<String>
    requires { (version ≡ 1) ⊎ (version ≡ 2) }
{
    match parse_line(alloc, version, text.as_bytes()) {
        Ok(Line::Skip) => Ok(format!(in alloc; "nothing")?),
        Ok(Line::One(event)) => written(alloc, event),
        Ok(Line::Flow(times)) => counted(alloc, Event::Flow, times),
        Ok(Line::Lose(times)) => counted(alloc, Event::Lose, times),
        Err(LineFault::Bad(reason)) => Ok(format!(in alloc; "{}", reason.name())?),
        Err(LineFault::NoMemory) => Err(NoMemory.into()),
    }
}

/// The event that the line says in this version, with the names of its fields.
pub(crate) fn event(alloc: Global, version: u8, text: &str) -> anyhow::Result<String>
    requires { (version ≡ 1) ⊎ (version ≡ 2) }
{
    match parse_line(alloc, version, text.as_bytes()) {
        Ok(Line::One(event)) => shown(alloc, &event),
        _ => Ok(format!(in alloc; "no event")?),
    }
}

fn shown(alloc: Global, event: &Event) -> anyhow::Result<String> {
    let same = is_copied(alloc, event)?;
    Ok(format!(in alloc; "{event:?}, copied: {same}")?)
}

fn is_copied(alloc: Global, event: &Event) -> Result<bool, NoMemory> {
    let copy = event.copy(alloc)?;
    Ok(copy.same(event))
}

fn counted(alloc: Global, event: Event, times: u32) -> anyhow::Result<String> {
    let written = written(alloc, event)?;
    Ok(format!(in alloc; "{written}, {times} times")?)
}

/// The event as a line of each version.
fn written(alloc: Global, event: Event) -> anyhow::Result<String> {
    let one = print_event(alloc, 1, &event)?;
    let two = print_event(alloc, 2, &event)?;
    let one = str::from_utf8(one.as_slice())?;
    let two = str::from_utf8(two.as_slice())?;
    Ok(format!(in alloc; "{one} = {two}")?)
}
