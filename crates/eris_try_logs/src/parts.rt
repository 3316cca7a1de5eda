ghost use Rattle.std.specs.Prelude.{◌≡◌, IsTrue, OnOk, IfOk};
ghost use Rattle.eris_log.specs.Held.{numbers_ascend};

use crate::steps::take_all;
use anyhow::ensure;
use eris_base::{Dup, Epoch, NoMemory, Row, Same, ShardId};
use eris_log::sorted::merged;
use eris_log::{Merge, Part, places};
use eris_txn::Packet;
use std::alloc::Global;

/// A part of epoch 5 and shard 0 that holds nothing.
pub(crate) fn new_part(alloc: Global) -> Part {
    Part::new(alloc, Epoch(5), ShardId(0))
}

/// A new part that took these steps.
pub(crate) fn filled(alloc: Global, steps: &str) -> anyhow::Result<Part> {
    let mut part = new_part(alloc);
    take_all(alloc, &mut part, steps)?;
    Ok(part)
}

/// Merges the other part into this one twice.
pub(crate) fn merge_parts(part: &mut Part, other: &Part) -> anyhow::Result<()> {
    ensure!(
        part.epoch() == other.epoch() && part.shard() == other.shard(),
        "another shard"
    );
    Ok(merge_twice(part, other)?)
}

/// Merging the same again changes nothing, whatever is merged.
fn merge_twice<M: Merge>(into: &mut M, other: &M) -> Result<(), NoMemory>
    requires { M.can_merge into.old other.now }
    ensures { OnOk result (into.new ≡ M.merged into.old other.now) }
{
    into.merge(other)?;
    into.merge(other)
}

pub(crate) fn is_copied(alloc: Global, part: &Part) -> Result<bool, NoMemory> {
    let copy = part.copy(alloc)?;
    Ok(copy.same(part))
}

/// Whether the part that is made of the same lists is the same.
pub(crate) fn is_made_of_lists(alloc: Global, part: &Part) -> Result<bool, NoMemory> {
    let made = made_of_lists(alloc, part)?;
    Ok(made.same(part))
}

fn made_of_lists(alloc: Global, part: &Part) -> Result<Part, NoMemory> {
    let held = copied(alloc, part.held_list())?;
    let temp = places::all_of(alloc, part.temp(), &[])?;
    let fnd = places::all_of(alloc, part.fnd(), &[])?;
    let perm = places::all_of(alloc, part.perm(), &[])?;
    Ok(Part::of_lists(alloc, part.epoch(), part.shard(), held, temp, fnd, perm))
}

#[tactic(auto, unfolding(eris_log::specs::Sorted::union))]
fn copied(alloc: Global, held: &[(u32, Packet)]) -> Result<Row<(u32, Packet)>, NoMemory>
    requires { IsTrue (numbers_ascend held.now) }
    ensures { IfOk result (λ made. made ≡ held.now) }
{
    merged(alloc, held, &[])
}
