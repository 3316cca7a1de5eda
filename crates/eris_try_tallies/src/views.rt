ghost use Rattle.std.specs.Prelude.{◌≡◌, ◌≤◌, IfOk};
ghost use Rattle.eris_view.specs.ViewTallyFacts.{AreOfShard};

use crate::packets::{hold, packet};
use crate::steps::{Stepping, Words, say, yes_or_no};
use anyhow::bail;
use eris_base::{Epoch, ReplicaId, ShardId, View};
use eris_log::Part;
use eris_view::{AckTally, ViewTally};
use std::alloc::Global;

/// The epoch and the shard of all parts.
const EPOCH: Epoch = Epoch(0);

const SHARD: ShardId = ShardId(0);

/// The tally of `VIEW F`.
pub(crate) fn tally(alloc: Global, words: &mut Words<'_>) -> anyhow::Result<ViewTally> {
    Ok(ViewTally::new(alloc, View(words.number()?), words.next()?))
}

impl Stepping for ViewTally {
    fn take(
        &mut self,
        alloc: Global,
        told: &mut String,
        name: &str,
        words: &mut Words<'_>,
    ) -> anyhow::Result<()> {
        let replica = ReplicaId(words.next()?);
        match name {
            "part" => Ok(self.note(replica, Part::new(alloc, EPOCH, SHARD))?),
            "ready" => say(told, yes_or_no(self.ready(replica))),
            _ => bail!("a step into a view"),
        }
    }
}

/// Merges the parts that three replicas sent into an own one. Tells the client of each packet that
/// the own part holds then.
pub(crate) fn union(alloc: Global, words: &mut Words<'_>) -> anyhow::Result<String> {
    let mut own = held(alloc, words)?;
    let tally = noted(alloc, &own, words)?;
    tally.union(&mut own)?;
    let mut told = String::new(alloc);
    for (number, packet) in own.held_list() {
        let one = format!(in alloc; "client {} at {number}", packet.id.client.0)?;
        say(&mut told, one.as_str())?;
    }
    Ok(told)
}

/// A part that holds the next packet.
fn held(alloc: Global, words: &mut Words<'_>) -> anyhow::Result<Part> {
    let mut part = Part::new(alloc, EPOCH, SHARD);
    hold(&mut part, packet(alloc, EPOCH, words)?)?;
    Ok(part)
}

/// The tally of the parts of three replicas.
#[tactic(auto, unfolding(eris_view::specs::ViewTallies::no_parts))]
fn noted(alloc: Global, own: &Part, words: &mut Words<'_>) -> anyhow::Result<ViewTally>
    ensures { IfOk result (λ tally. AreOfShard own.now tally.noted) }
{
    let mut tally = ViewTally::new(alloc, View(1), 1);
    note(
        own,
        &mut tally,
        ReplicaId(words.next()?),
        held(alloc, words)?,
    )?;
    note(
        own,
        &mut tally,
        ReplicaId(words.next()?),
        held(alloc, words)?,
    )?;
    note(
        own,
        &mut tally,
        ReplicaId(words.next()?),
        held(alloc, words)?,
    )?;
    Ok(tally)
}

fn note(own: &Part, tally: &mut ViewTally, replica: ReplicaId, part: Part) -> anyhow::Result<()>
    requires { AreOfShard own.now tally.old.noted }
    ensures { AreOfShard own.now tally.new.noted }
{
    if part.epoch() != own.epoch() || part.shard() != own.shard() {
        bail!("a part of another shard");
    }
    tally.note(replica, part)?;
    Ok(())
}

/// What was acknowledged in a shard that outlives `f` faults.
#[derive(Drop)]
pub(crate) struct Acknowledged {
    f: u8,
    tally: AckTally,
    ghost few: { f ≤ 3 },
    ghost same: { tally.f ≡ f },
}

impl Acknowledged {
    /// That of `F`.
    pub(crate) fn new(words: &mut Words<'_>) -> anyhow::Result<Acknowledged> {
        let f = words.next()?;
        if f > 3 {
            bail!("more than three faults");
        }
        let tally = AckTally::new(f);
        Ok(Acknowledged { f, tally })
    }
}

impl Stepping for Acknowledged {
    fn take(
        &mut self,
        alloc: Global,
        told: &mut String,
        name: &str,
        words: &mut Words<'_>,
    ) -> anyhow::Result<()> {
        match name {
            "note" => acknowledge(self, ReplicaId(words.next()?), words.number()?),
            "settled" => {
                let settled = self.tally.settled(words.number()?);
                let one = format!(in alloc; "{settled}")?;
                say(told, one.as_str())
            }
            _ => bail!("a step of acknowledgements"),
        }
    }
}

fn acknowledge(acks: &mut Acknowledged, replica: ReplicaId, length: u32) -> anyhow::Result<()> {
    if replica.0 >= 2 * acks.f + 1 {
        bail!("a replica that isn't there");
    }
    acks.tally.note(replica, length);
    Ok(())
}
