use crate::packets::{hold, packet, place};
use crate::steps::{Stepping, Words, say, yes_or_no};
use anyhow::bail;
use eris_base::{Epoch, ReplicaId, ShardId, View};
use eris_drop::{DropCount, answer_request};
use eris_log::Part;
use std::alloc::Global;

/// The epoch of the places whose drops are counted.
const EPOCH: Epoch = Epoch(2);

impl Stepping for DropCount {
    fn take(
        &mut self,
        _alloc: Global,
        told: &mut String,
        name: &str,
        words: &mut Words<'_>,
    ) -> anyhow::Result<()> {
        let place = place(EPOCH, words)?;
        match name {
            "note" => {
                let shard = ShardId(words.next()?);
                let replica = ReplicaId(words.next()?);
                Ok(self.note(place, shard, replica, View(words.number()?))?)
            }
            "forget" => Ok(self.forget(place)),
            "decided" => say(told, yes_or_no(self.decided(place))),
            _ => bail!("a step of a count of drops"),
        }
    }
}

pub(crate) fn empty_part(alloc: Global, words: &mut Words<'_>) -> anyhow::Result<Part> {
    Ok(Part::new(alloc, Epoch(words.number()?), ShardId(words.next()?)))
}

impl Stepping for Part {
    fn take(
        &mut self,
        alloc: Global,
        told: &mut String,
        name: &str,
        words: &mut Words<'_>,
    ) -> anyhow::Result<()> {
        match name {
            "hold" => hold(self, packet(alloc, self.epoch(), words)?),
            "find" => find(alloc, self, words),
            "temp" => Ok(self.mark_temp(place(self.epoch(), words)?)?),
            "drop" => Ok(self.mark_dropped(place(self.epoch(), words)?)?),
            "request" => request(alloc, told, self, words),
            _ => bail!("a step of a part"),
        }
    }
}

fn find(alloc: Global, part: &mut Part, words: &mut Words<'_>) -> anyhow::Result<()> {
    let packet = packet(alloc, part.epoch(), words)?;
    if packet.stamp.epoch != part.epoch() {
        bail!("a packet of another epoch");
    }
    part.mark_found(&packet.stamp)?;
    Ok(())
}

fn request(
    alloc: Global,
    told: &mut String,
    part: &Part,
    words: &mut Words<'_>,
) -> anyhow::Result<()> {
    let answer = answer_request(part, place(part.epoch(), words)?);
    let one = format!(in alloc; "{answer:?}")?;
    say(told, one.as_str())
}
