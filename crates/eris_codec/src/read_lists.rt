ghost use Rattle.std.specs.Prelude.{◌≡◌, [], List};
ghost use Rattle.eris_codec.specs.Answers.{Gives};
ghost use Rattle.eris_codec.specs.Codecs.{Codec, ◌⊗◌, listed, arm, read_items};
ghost use Rattle.eris_codec.specs.Fields as f;

use crate::fault::{DecodeReason, Stop};
use crate::input::{Input, bad};
use crate::read_fields::{read_client, read_id, read_key, read_lock, read_stamp, read_write};
use eris_base::Row;
use eris_txn::{Answer, Body, Key, Lock, Op, OpAnswer, Packet, Write};
use std::alloc::Global;

/// What is read as an item of a list, and may depend on the items before it.
pub trait Item: Drop {
    ghost codec: { List Self → Codec Self };

    fn read(alloc: Global, before: &[Self], input: &mut Input) -> Result<Self, Stop>
        ensures { Gives (λ x. (x, input.new)) result ((codec before.now).read input.old) };
}

/// So many items. It takes memory for those that are there alone.
pub fn read_row<T: Item>(alloc: Global, count: u32, input: &mut Input) -> Result<Row<T>, Stop>
    ensures { Gives (λ x. (x, input.new)) result (read_items T.codec [] count input.old) }
{
    let mut items = Row::new(alloc);
    for _ in 0..count {
        let item = T::read(alloc, items.as_slice(), input)?;
        items.push(item)?;
    }
    Ok(items)
}

impl Item for Key {
    ghost codec = { λ _. f.key };

    fn read(_: Global, _: &[Key], input: &mut Input) -> Result<Key, Stop> {
        read_key(input)
    }
}

impl Item for Lock {
    ghost codec = { λ _. f.lock };

    fn read(_: Global, _: &[Lock], input: &mut Input) -> Result<Lock, Stop> {
        read_lock(input)
    }
}

impl Item for Write {
    ghost codec = { λ _. f.write };

    fn read(_: Global, _: &[Write], input: &mut Input) -> Result<Write, Stop> {
        read_write(input)
    }
}

#[tactic(auto, unfolding(crate::specs::Fields::op_behind))]
fn op_behind(tag: u8, input: &mut Input) -> Result<Op, Stop>
    ensures { Gives (λ x. (x, input.new)) result (f.op_behind tag input.old) }
{
    match tag {
        1 => Ok(Op::Get(read_key(input)?)),
        2 => Ok(Op::Put(read_key(input)?, input.value()?)),
        3 => Ok(Op::Del(read_key(input)?)),
        4 => Ok(Op::Add(read_key(input)?, input.value()?)),
        5 => Ok(Op::Cas(read_key(input)?, input.value()?, input.value()?)),
        _ => bad(0, DecodeReason::Range),
    }
}

impl Item for Op {
    ghost codec = { λ _. f.op };

    #[tactic(auto, unfolding(crate::specs::Fields::op))]
    fn read(_: Global, _: &[Op], input: &mut Input) -> Result<Op, Stop> {
        let tag = input.byte_in(1, 5)?;
        op_behind(tag, input)
    }
}

#[tactic(auto, unfolding(crate::specs::Fields::op_answer_behind))]
fn op_answer_behind(tag: u8, input: &mut Input) -> Result<OpAnswer, Stop>
    ensures { Gives (λ x. (x, input.new)) result (f.op_answer_behind tag input.old) }
{
    match tag {
        1 => Ok(OpAnswer::Value(input.value()?)),
        2 => Ok(OpAnswer::Absent),
        3 => Ok(OpAnswer::Done),
        4 => Ok(OpAnswer::Yes),
        5 => Ok(OpAnswer::No),
        _ => bad(0, DecodeReason::Range),
    }
}

impl Item for OpAnswer {
    ghost codec = { λ _. f.op_answer };

    #[tactic(auto, unfolding(crate::specs::Fields::op_answer))]
    fn read(_: Global, _: &[OpAnswer], input: &mut Input) -> Result<OpAnswer, Stop> {
        let tag = input.byte_in(1, 5)?;
        op_answer_behind(tag, input)
    }
}

#[tactic(auto, unfolding(crate::specs::Fields::found_behind))]
fn found_behind(tag: u8, input: &mut Input) -> Result<Option<u64>, Stop>
    ensures { Gives (λ x. (x, input.new)) result (f.found_behind tag input.old) }
{
    match tag {
        0 => Ok(None),
        1 => Ok(Some(input.value()?)),
        _ => bad(0, DecodeReason::Range),
    }
}

impl Item for Option<u64> {
    ghost codec = { λ _. f.found };

    #[tactic(auto, unfolding(crate::specs::Fields::found))]
    fn read(_: Global, _: &[Option<u64>], input: &mut Input) -> Result<Option<u64>, Stop> {
        let tag = input.byte_in(0, 1)?;
        found_behind(tag, input)
    }
}

/// From `least` to `most` items.
pub fn read_few<T: Item>(
    alloc: Global,
    least: u8,
    most: u8,
    input: &mut Input,
) -> Result<Row<T>, Stop>
    ensures { Gives (λ x. (x, input.new)) result
        ((listed (f.from_to least most) (λ _. []) T.codec).read input.old) }
{
    let count = input.byte_in(least, most)?;
    read_row::<T>(alloc, u32::from(count), input)
}

#[tactic(auto, unfolding(crate::specs::Fields::keys, crate::specs::Fields::writes))]
fn read_commit(alloc: Global, input: &mut Input) -> Result<Body, Stop>
    ensures { Gives (λ x. (x, input.new)) result (arm (λ p. Body.Commit p.0 p.1) (f.keys ⊗ f.writes) input.old) }
{
    let keys = read_few::<Key>(alloc, 1, 32, input)?;
    let writes = read_few::<Write>(alloc, 0, 32, input)?;
    Ok(Body::Commit(keys, writes))
}

#[tactic(auto, unfolding(crate::specs::Fields::body_behind, crate::specs::Fields::ops, crate::specs::Fields::locks, crate::specs::Fields::keys))]
fn body_behind(alloc: Global, tag: u8, input: &mut Input) -> Result<Body, Stop>
    ensures { Gives (λ x. (x, input.new)) result (f.body_behind tag input.old) }
{
    match tag {
        1 => Ok(Body::Independent(read_few::<Op>(alloc, 1, 32, input)?)),
        2 => Ok(Body::Prelim(read_few::<Lock>(alloc, 1, 32, input)?)),
        3 => read_commit(alloc, input),
        4 => Ok(Body::Abort(read_few::<Key>(alloc, 1, 32, input)?)),
        _ => bad(0, DecodeReason::Range),
    }
}

/// Reads a body.
#[tactic(auto, unfolding(crate::specs::Fields::body))]
pub fn read_body(alloc: Global, input: &mut Input) -> Result<Body, Stop>
    ensures { Gives (λ x. (x, input.new)) result (f.body.read input.old) }
{
    let tag = input.byte_in(1, 4)?;
    body_behind(alloc, tag, input)
}

/// Reads a packet.
#[tactic(auto, unfolding(crate::specs::Fields::packet))]
pub fn read_packet(alloc: Global, input: &mut Input) -> Result<Packet, Stop>
    ensures { Gives (λ x. (x, input.new)) result (f.packet.read input.old) }
{
    let stamp = read_stamp(alloc, input)?;
    let id = read_id(input)?;
    let asker = read_client(input)?;
    let body = read_body(alloc, input)?;
    Ok(Packet {
        stamp,
        id,
        asker,
        body,
    })
}

impl Item for Packet {
    ghost codec = { λ _. f.packet };

    fn read(alloc: Global, _: &[Packet], input: &mut Input) -> Result<Packet, Stop> {
        read_packet(alloc, input)
    }
}

/// Reads a list of packets behind their count.
#[tactic(auto, unfolding(crate::specs::Fields::packets))]
pub fn read_packets(alloc: Global, input: &mut Input) -> Result<Row<Packet>, Stop>
    ensures { Gives (λ x. (x, input.new)) result (f.packets.read input.old) }
{
    let count = input.word()?;
    read_row::<Packet>(alloc, count, input)
}

#[tactic(auto, unfolding(crate::specs::Fields::answer_behind, crate::specs::Fields::op_answers, crate::specs::Fields::values))]
fn answer_behind(alloc: Global, tag: u8, input: &mut Input) -> Result<Answer, Stop>
    ensures { Gives (λ x. (x, input.new)) result (f.answer_behind tag input.old) }
{
    match tag {
        1 => Ok(Answer::Ops(read_few::<OpAnswer>(alloc, 1, 32, input)?)),
        2 => Ok(Answer::Values(read_few::<Option<u64>>(alloc, 1, 32, input)?)),
        3 => Ok(Answer::Committed),
        4 => Ok(Answer::Aborted),
        _ => bad(0, DecodeReason::Range),
    }
}

/// Reads an answer.
#[tactic(auto, unfolding(crate::specs::Fields::answer))]
pub fn read_answer(alloc: Global, input: &mut Input) -> Result<Answer, Stop>
    ensures { Gives (λ x. (x, input.new)) result (f.answer.read input.old) }
{
    let tag = input.byte_in(1, 4)?;
    answer_behind(alloc, tag, input)
}
