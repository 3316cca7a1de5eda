use crate::words::{count, name, word};
use anyhow::bail;
use eris_base::{Dup, Epoch, NoMemory, ReplicaId, ShardId, View};
use eris_event::{ReplicaLine, ReplicaState};
use std::alloc::Global;

/// The line `SHARD REPLICA STATE EPOCH VIEW HELD LENGTH SETTLED`.
pub(crate) fn replica(text: &str) -> anyhow::Result<ReplicaLine> {
    Ok(ReplicaLine {
        shard: ShardId(name(text, 0)?),
        replica: ReplicaId(name(text, 1)?),
        state: state(word(text, 2)?)?,
        epoch: Epoch(count(text, 3)?),
        view: View(count(text, 4)?),
        held: count(text, 5)?,
        length: count(text, 6)?,
        settled: count(text, 7)?,
    })
}

fn state(name: &str) -> anyhow::Result<ReplicaState> {
    match name {
        "Crashed" => Ok(ReplicaState::Crashed),
        "Stopped" => Ok(ReplicaState::Stopped),
        "Normal" => Ok(ReplicaState::Normal),
        "Changing" => Ok(ReplicaState::Changing),
        _ => bail!("no such state: {name}"),
    }
}

/// Whether the line and its state are equal to their copies.
pub(crate) fn is_copied(alloc: Global, line: &ReplicaLine) -> Result<bool, NoMemory> {
    let copy = line.copy(alloc)?;
    let state = line.state.copy(alloc)?;
    Ok(copy == *line && state == line.state)
}
