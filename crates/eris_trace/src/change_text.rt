ghost use Rattle.std.specs.Prelude.{◌≡◌, ◌++◌, OnOk, IfOk};
ghost use Rattle.eris_report.specs.ReplicaText.{state_word};
ghost use Rattle.eris_trace.specs.ChangeText.{all_replica_changes, changed_line, changes_text, coordinator_change, coordinator_changes, count_change, replica_change, replica_changes, replica_name, state_change};
ghost use Rattle.eris_words.specs.Words.{spaced};

use crate::standing::Standing;
use eris_base::{NoMemory, Row};
use eris_event::{ReplicaLine, ReplicaState};
use eris_words::{append_decimal, put_count, put_number, put_word};
use std::alloc::Global;

/// Adds what a step changed at the replicas and the coordinator, in the words of a report; nothing where nothing changed.
#[tactic(auto, unfolding(crate::specs::ChangeText::changes_text))]
pub fn put_changes(
    alloc: Global,
    out: &mut Row<u8>,
    old: &Standing,
    new: &Standing,
) -> Result<(), NoMemory>
    ensures { OnOk result (out.new ≡ out.old ++ changes_text old.now new.now) }
{
    put_all_replica_changes(alloc, out, old.replicas.as_slice(), new.replicas.as_slice())?;
    put_coordinator_changes(alloc, out, old, new)
}

// Lines of the same replicas, in the same order.
fn put_all_replica_changes(
    alloc: Global,
    out: &mut Row<u8>,
    old: &[ReplicaLine],
    new: &[ReplicaLine],
) -> Result<(), NoMemory>
    ensures { OnOk result (out.new ≡ out.old ++ all_replica_changes old.now new.now) }
{
    match old {
        [] => Ok(()),
        [before, olds @ ..] => match new {
            [] => Ok(()),
            [after, news @ ..] => {
                put_replica_changes(alloc, out, before, after)?;
                put_all_replica_changes(alloc, out, olds, news)
            }
        },
    }
}

#[tactic(auto, unfolding(crate::specs::ChangeText::replica_changes))]
fn put_replica_changes(
    alloc: Global,
    out: &mut Row<u8>,
    old: &ReplicaLine,
    new: &ReplicaLine,
) -> Result<(), NoMemory>
    ensures { OnOk result (out.new ≡ out.old ++ replica_changes old.now new.now) }
{
    let changes = replica_change(alloc, old, new)?;
    let name = replica_name(alloc, old)?;
    put_changed_line(out, name.as_slice(), changes.as_slice())
}

#[tactic(auto, unfolding(crate::specs::ChangeText::coordinator_changes))]
fn put_coordinator_changes(
    alloc: Global,
    out: &mut Row<u8>,
    old: &Standing,
    new: &Standing,
) -> Result<(), NoMemory>
    ensures { OnOk result (out.new ≡ out.old ++ coordinator_changes old.now new.now) }
{
    let changes = coordinator_change(alloc, old, new)?;
    put_changed_line(out, b"coord", changes.as_slice())
}

// A line of what changed at a node; nothing where nothing did.
fn put_changed_line(out: &mut Row<u8>, node: &[u8], changes: &[u8]) -> Result<(), NoMemory>
    ensures { OnOk result (out.new ≡ out.old ++ changed_line node.now changes.now) }
{
    match changes {
        [] => Ok(()),
        _ => {
            out.append(b"    ")?;
            out.append(node)?;
            out.append(changes)?;
            out.push(b'\n')
        }
    }
}

fn replica_name(alloc: Global, one: &ReplicaLine) -> Result<Row<u8>, NoMemory>
    ensures { IfOk result (λ name. name ≡ replica_name one.now) }
{
    let mut name = Row::new(alloc);
    name.append(b"rep ")?;
    append_decimal(&mut name, u64::from(one.shard.0))?;
    name.push(b'.')?;
    append_decimal(&mut name, u64::from(one.replica.0))?;
    Ok(name)
}

#[tactic(auto, unfolding(crate::specs::ChangeText::replica_change))]
fn replica_change(alloc: Global, old: &ReplicaLine, new: &ReplicaLine) -> Result<Row<u8>, NoMemory>
    ensures { IfOk result (λ text. text ≡ spaced (replica_change old.now new.now)) }
{
    let mut text = Row::new(alloc);
    put_state_change(&mut text, state_name(old.state), state_name(new.state))?;
    put_count_change(&mut text, b"epoch", old.epoch.0, new.epoch.0)?;
    put_count_change(&mut text, b"view", old.view.0, new.view.0)?;
    put_count_change(&mut text, b"held", old.held, new.held)?;
    put_count_change(&mut text, b"length", old.length, new.length)?;
    put_count_change(&mut text, b"settled", old.settled, new.settled)?;
    Ok(text)
}

#[tactic(auto, unfolding(crate::specs::ChangeText::coordinator_change))]
fn coordinator_change(alloc: Global, old: &Standing, new: &Standing) -> Result<Row<u8>, NoMemory>
    ensures { IfOk result (λ text. text ≡ spaced (coordinator_change old.now new.now)) }
{
    let mut text = Row::new(alloc);
    put_count_change(&mut text, b"epoch", old.current.0, new.current.0)?;
    put_count_change(&mut text, b"target", old.target.0, new.target.0)?;
    put_count_change(&mut text, b"found", old.found, new.found)?;
    put_count_change(&mut text, b"dropped", old.dropped, new.dropped)?;
    Ok(text)
}

fn put_count_change(out: &mut Row<u8>, name: &[u8], old: u32, new: u32) -> Result<(), NoMemory>
    ensures { OnOk result (out.new ≡ out.old ++ spaced (count_change name.now old new)) }
{
    if old == new {
        return Ok(());
    }
    put_count(out, name, old)?;
    put_word(out, b"to")?;
    put_number(out, u64::from(new))
}

fn put_state_change(out: &mut Row<u8>, old: &[u8], new: &[u8]) -> Result<(), NoMemory>
    ensures { OnOk result (out.new ≡ out.old ++ spaced (state_change old.now new.now)) }
{
    if old == new {
        return Ok(());
    }
    put_word(out, old)?;
    put_word(out, b"to")?;
    put_word(out, new)
}

fn state_name(state: ReplicaState) -> &'static [u8]
    ensures { result.now ≡ state_word state }
{
    match state {
        ReplicaState::Crashed => b"crashed",
        ReplicaState::Stopped => b"stopped",
        ReplicaState::Normal => b"normal",
        ReplicaState::Changing => b"changing",
    }
}
