ghost use Rattle.std.specs.Prelude.{◌≡◌, IfOk};
ghost use Rattle.eris_log.specs.PartFacts.{AreHeld, AreMarks};
ghost use Rattle.eris_codec.specs.Answers.{Gives};
ghost use Rattle.eris_codec.specs.Codecs.{last_of, arm};
ghost use Rattle.eris_codec.specs.Parts as p;

use crate::fault::{DecodeReason, Stop};
use crate::input::{Input, bad};
use crate::read_fields::{read_epoch, read_number, read_shard};
use crate::read_lists::{Item, read_packet, read_row};
use eris_base::{Epoch, Place, Row, ShardId};
use eris_log::Part;
use eris_log::places::places_at;
use eris_txn::Packet;
use std::alloc::Global;

/// Whether the pair is above the last one, by shard, then number.
fn is_after(before: &[(ShardId, u32)], shard: ShardId, number: u32) -> bool
    ensures { result ≡ p.is_after (last_of before.now) (shard, number) }
{
    match before.last() {
        None => true,
        Some(last) => last.0.0 < shard.0 || last.0.0 == shard.0 && last.1 < number,
    }
}

impl Item for (ShardId, u32) {
    ghost codec = { p.listed_place };

    #[tactic(auto, unfolding(crate::specs::Parts::listed_place))]
    fn read(
        _: Global,
        before: &[(ShardId, u32)],
        input: &mut Input,
    ) -> Result<(ShardId, u32), Stop> {
        let left = input.left();
        let shard = read_shard(input)?;
        let number = read_number(input)?;
        if !is_after(before, shard, number) {
            return bad(left, DecodeReason::Order);
        }
        Ok((shard, number))
    }
}

/// Whether the number is above that of the last packet.
fn is_above(before: &[(u32, Packet)], number: u32) -> bool
    ensures { result ≡ p.is_above (last_of before.now) number }
{
    match before.last() {
        None => true,
        Some(last) => last.0 < number,
    }
}

impl Item for (u32, Packet) {
    ghost codec = { p.held_packet };

    #[tactic(auto, unfolding(crate::specs::Parts::held_packet))]
    fn read(
        alloc: Global,
        before: &[(u32, Packet)],
        input: &mut Input,
    ) -> Result<(u32, Packet), Stop> {
        let left = input.left();
        let number = read_number(input)?;
        if !is_above(before, number) {
            return bad(left, DecodeReason::Order);
        }
        let packet = read_packet(alloc, input)?;
        Ok((number, packet))
    }
}

/// Reads places of one epoch behind their count, ascending.
#[tactic(auto, unfolding(crate::specs::Parts::places))]
pub fn read_places(alloc: Global, input: &mut Input) -> Result<Row<(ShardId, u32)>, Stop>
    ensures { Gives (λ x. (x, input.new)) result (p.places.read input.old) }
{
    let count = input.word()?;
    read_row::<(ShardId, u32)>(alloc, count, input)
}

/// Places of a part, which are of its epoch.
#[tactic(auto, unfolding(crate::specs::Parts::places_at))]
fn read_marks(alloc: Global, epoch: Epoch, input: &mut Input) -> Result<Row<Place>, Stop>
    ensures gives { Gives (λ x. (x, input.new)) result (arm (p.places_at epoch) p.places input.old) }
    ensures fits { IfOk result (λ places. AreMarks epoch places) }
{
    let pairs = read_places(alloc, input)?;
    let places = places_at(alloc, epoch, pairs.as_slice())?;
    Ok(places)
}

#[tactic(auto, unfolding(crate::specs::Parts::held))]
fn read_held_packets(alloc: Global, input: &mut Input) -> Result<Row<(u32, Packet)>, Stop>
    ensures { Gives (λ x. (x, input.new)) result (p.held.read input.old) }
{
    let count = input.word()?;
    read_row::<(u32, Packet)>(alloc, count, input)
}

/// Packets by ascending numbers.
fn read_held(alloc: Global, input: &mut Input) -> Result<Row<(u32, Packet)>, Stop>
    ensures gives { Gives (λ x. (x, input.new)) result (p.held.read input.old) }
    ensures fits { IfOk result (λ held. AreHeld held) }
{
    let held = read_held_packets(alloc, input)?;
    Ok(held)
}

/// Reads a part: its epoch, its shard, its packets and its marks.
#[tactic(auto, unfolding(crate::specs::Parts::part))]
pub fn read_part(alloc: Global, input: &mut Input) -> Result<Part, Stop>
    ensures { Gives (λ x. (x, input.new)) result (p.part.read input.old) }
{
    let shard = read_shard(input)?;
    let epoch = read_epoch(input)?;
    let held = read_held(alloc, input)?;
    let temp = read_marks(alloc, epoch, input)?;
    let fnd = read_marks(alloc, epoch, input)?;
    let perm = read_marks(alloc, epoch, input)?;
    Ok(Part::of_lists(alloc, epoch, shard, held, temp, fnd, perm))
}
