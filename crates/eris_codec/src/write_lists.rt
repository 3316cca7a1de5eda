ghost use Rattle.std.specs.Prelude.{◌≡◌, ◌<◌, ◌^◌, ◌++◌, ◌∷◌, [], List, ℕ, length, true, OnOk, All};
ghost use Rattle.std.specs.List.{flat_map};
ghost use Rattle.eris_log.specs.Places.{pair_of};
ghost use Rattle.eris_codec.specs.Codecs.{◌⊗◌};
ghost use Rattle.eris_codec.specs.Fields as f;
ghost use Rattle.eris_codec.specs.Parts as p;

use crate::write_fields::{
    put_client, put_count, put_epoch, put_found, put_id, put_key, put_lock, put_number, put_op,
    put_op_answer, put_pair, put_shard, put_tag, put_word, put_write,
};
use eris_base::{NoMemory, Place, Row, ShardId, Stamp};
use eris_log::Part;
use eris_txn::{Answer, Body, Key, Lock, Op, OpAnswer, Packet, Write};

/// What is written as an item of a list.
trait Spelled {
    ghost spell: { Self → List ℕ };

    fn put(&self, out: &mut Row<u8>) -> Result<(), NoMemory>
        ensures { OnOk result (out.new ≡ out.old ++ spell self.now) };
}

impl Spelled for Key {
    ghost spell = { f.key.spell };

    fn put(&self, out: &mut Row<u8>) -> Result<(), NoMemory> {
        put_key(out, self)
    }
}

impl Spelled for Lock {
    ghost spell = { f.lock.spell };

    fn put(&self, out: &mut Row<u8>) -> Result<(), NoMemory> {
        put_lock(out, self)
    }
}

impl Spelled for Write {
    ghost spell = { f.write.spell };

    fn put(&self, out: &mut Row<u8>) -> Result<(), NoMemory> {
        put_write(out, self)
    }
}

impl Spelled for Op {
    ghost spell = { f.op.spell };

    fn put(&self, out: &mut Row<u8>) -> Result<(), NoMemory> {
        put_op(out, self)
    }
}

impl Spelled for OpAnswer {
    ghost spell = { f.op_answer.spell };

    fn put(&self, out: &mut Row<u8>) -> Result<(), NoMemory> {
        put_op_answer(out, self)
    }
}

impl Spelled for Option<u64> {
    ghost spell = { f.found.spell };

    fn put(&self, out: &mut Row<u8>) -> Result<(), NoMemory> {
        put_found(out, self)
    }
}

impl Spelled for (ShardId, u32) {
    ghost spell = { (f.shard ⊗ f.number).spell };

    fn put(&self, out: &mut Row<u8>) -> Result<(), NoMemory> {
        put_pair(out, self.0, self.1)
    }
}

/// A place of a part, whose epoch is the part's.
impl Spelled for Place {
    ghost spell = { λ place. (f.shard ⊗ f.number).spell (pair_of place) };

    fn put(&self, out: &mut Row<u8>) -> Result<(), NoMemory> {
        put_pair(out, self.shard, self.number)
    }
}

fn put_all<T: Spelled>(out: &mut Row<u8>, items: &[T]) -> Result<(), NoMemory>
    ensures { OnOk result (out.new ≡ out.old ++ flat_map T.spell items.now) }
{
    for item in items {
        item.put(out)?;
    }
    Ok(())
}

/// A count of at most 255 in one byte, and so many items.
fn put_few<T: Spelled>(out: &mut Row<u8>, items: &[T]) -> Result<(), NoMemory>
    requires { length items.now < 2 ^ 8 }
    ensures { OnOk result (out.new ≡ out.old ++ (f.byte.spell (length items.now) ++ flat_map T.spell items.now)) }
{
    put_count(out, items.len())?;
    put_all(out, items)
}

/// A count in four bytes, and so many items.
fn put_many<T: Spelled>(out: &mut Row<u8>, items: &[T]) -> Result<(), NoMemory>
    requires { length items.now < 2 ^ 32 }
    ensures { OnOk result (out.new ≡ out.old ++ (f.word.spell (length items.now) ++ flat_map T.spell items.now)) }
{
    put_word(out, items.len() as u32)?;
    put_all(out, items)
}

/// Adds a stamp, whose shards ascend.
#[tactic(auto, unfolding(crate::specs::Fields::stamp, crate::specs::Fields::from_to), using(crate::proofs::Sizes::few_places))]
pub fn put_stamp(out: &mut Row<u8>, stamp: &Stamp) -> Result<(), NoMemory>
    requires { f.stamp.fits stamp.now ≡ true }
    ensures { OnOk result (out.new ≡ out.old ++ f.stamp.spell stamp.now) }
{
    put_epoch(out, stamp.epoch)?;
    put_few(out, stamp.places())
}

#[tactic(auto, unfolding(crate::specs::Fields::ops, crate::specs::Fields::from_to), using(crate::proofs::Sizes::few_ops))]
fn put_ops(out: &mut Row<u8>, ops: &[Op]) -> Result<(), NoMemory>
    requires { f.ops.fits ops.now ≡ true }
    ensures { OnOk result (out.new ≡ out.old ++ f.ops.spell ops.now) }
{
    put_few(out, ops)
}

#[tactic(auto, unfolding(crate::specs::Fields::locks, crate::specs::Fields::from_to), using(crate::proofs::Sizes::few_locks))]
fn put_locks(out: &mut Row<u8>, locks: &[Lock]) -> Result<(), NoMemory>
    requires { f.locks.fits locks.now ≡ true }
    ensures { OnOk result (out.new ≡ out.old ++ f.locks.spell locks.now) }
{
    put_few(out, locks)
}

#[tactic(auto, unfolding(crate::specs::Fields::keys, crate::specs::Fields::from_to), using(crate::proofs::Sizes::few_keys))]
fn put_keys(out: &mut Row<u8>, keys: &[Key]) -> Result<(), NoMemory>
    requires { f.keys.fits keys.now ≡ true }
    ensures { OnOk result (out.new ≡ out.old ++ f.keys.spell keys.now) }
{
    put_few(out, keys)
}

#[tactic(auto, unfolding(crate::specs::Fields::writes, crate::specs::Fields::from_to), using(crate::proofs::Sizes::few_writes))]
fn put_writes(out: &mut Row<u8>, writes: &[Write]) -> Result<(), NoMemory>
    requires { f.writes.fits writes.now ≡ true }
    ensures { OnOk result (out.new ≡ out.old ++ f.writes.spell writes.now) }
{
    put_few(out, writes)
}

fn put_commit(out: &mut Row<u8>, keys: &[Key], writes: &[Write]) -> Result<(), NoMemory>
    requires { (f.keys ⊗ f.writes).fits (keys.now, writes.now) ≡ true }
    ensures { OnOk result (out.new ≡ out.old ++ (f.keys ⊗ f.writes).spell (keys.now, writes.now)) }
{
    put_keys(out, keys)?;
    put_writes(out, writes)
}

/// Adds a body.
#[tactic(auto, unfolding(crate::specs::Fields::body, crate::specs::Fields::spell_body, crate::specs::Fields::body_fits))]
pub fn put_body(out: &mut Row<u8>, body: &Body) -> Result<(), NoMemory>
    requires { f.body.fits body.now ≡ true }
    ensures { OnOk result (out.new ≡ out.old ++ f.body.spell body.now) }
{
    match body {
        Body::Independent(ops) => {
            put_tag(out, 1)?;
            put_ops(out, ops.as_slice())
        }
        Body::Prelim(locks) => {
            put_tag(out, 2)?;
            put_locks(out, locks.as_slice())
        }
        Body::Commit(keys, writes) => {
            put_tag(out, 3)?;
            put_commit(out, keys.as_slice(), writes.as_slice())
        }
        Body::Abort(keys) => {
            put_tag(out, 4)?;
            put_keys(out, keys.as_slice())
        }
    }
}

/// Adds a packet.
#[tactic(auto, unfolding(crate::specs::Fields::packet))]
pub fn put_packet(out: &mut Row<u8>, packet: &Packet) -> Result<(), NoMemory>
    requires { f.packet.fits packet.now ≡ true }
    ensures { OnOk result (out.new ≡ out.old ++ f.packet.spell packet.now) }
{
    put_stamp(out, &packet.stamp)?;
    put_id(out, packet.id)?;
    put_client(out, packet.asker)?;
    put_body(out, &packet.body)
}

fn put_all_packets(out: &mut Row<u8>, packets: &[Packet]) -> Result<(), NoMemory>
    requires { All (λ packet. f.packet.fits packet ≡ true) packets.now }
    ensures { OnOk result (out.new ≡ out.old ++ flat_map f.packet.spell packets.now) }
{
    for packet in packets {
        put_packet(out, packet)?;
    }
    Ok(())
}

/// Adds a list of packets behind their count.
#[tactic(auto, unfolding(crate::specs::Fields::packets), using(crate::proofs::Sizes::packets_many, crate::proofs::Sizes::packets_fit))]
pub fn put_packets(out: &mut Row<u8>, packets: &[Packet]) -> Result<(), NoMemory>
    requires { f.packets.fits packets.now ≡ true }
    ensures { OnOk result (out.new ≡ out.old ++ f.packets.spell packets.now) }
{
    put_word(out, packets.len() as u32)?;
    put_all_packets(out, packets)
}

#[tactic(auto, unfolding(crate::specs::Fields::op_answers, crate::specs::Fields::from_to), using(crate::proofs::Sizes::few_op_answers))]
fn put_op_answers(out: &mut Row<u8>, answers: &[OpAnswer]) -> Result<(), NoMemory>
    requires { f.op_answers.fits answers.now ≡ true }
    ensures { OnOk result (out.new ≡ out.old ++ f.op_answers.spell answers.now) }
{
    put_few(out, answers)
}

#[tactic(auto, unfolding(crate::specs::Fields::values, crate::specs::Fields::from_to), using(crate::proofs::Sizes::few_values))]
fn put_values(out: &mut Row<u8>, values: &[Option<u64>]) -> Result<(), NoMemory>
    requires { f.values.fits values.now ≡ true }
    ensures { OnOk result (out.new ≡ out.old ++ f.values.spell values.now) }
{
    put_few(out, values)
}

/// Adds an answer.
#[tactic(auto, unfolding(crate::specs::Fields::answer, crate::specs::Fields::spell_answer, crate::specs::Fields::answer_fits))]
pub fn put_answer(out: &mut Row<u8>, answer: &Answer) -> Result<(), NoMemory>
    requires { f.answer.fits answer.now ≡ true }
    ensures { OnOk result (out.new ≡ out.old ++ f.answer.spell answer.now) }
{
    match answer {
        Answer::Ops(answers) => {
            put_tag(out, 1)?;
            put_op_answers(out, answers.as_slice())
        }
        Answer::Values(values) => {
            put_tag(out, 2)?;
            put_values(out, values.as_slice())
        }
        Answer::Committed => put_tag(out, 3),
        Answer::Aborted => put_tag(out, 4),
    }
}

/// Adds places of one epoch behind their count, ascending.
#[tactic(auto, unfolding(crate::specs::Parts::places), using(crate::proofs::Sizes::many_places))]
pub fn put_places(out: &mut Row<u8>, places: &[(ShardId, u32)]) -> Result<(), NoMemory>
    requires { p.places.fits places.now ≡ true }
    ensures { OnOk result (out.new ≡ out.old ++ p.places.spell places.now) }
{
    put_many(out, places)
}

/// Places of a part, which are of its epoch.
#[tactic(auto, unfolding(crate::specs::Parts::places), using(crate::proofs::Sizes::marks_spell, crate::proofs::Sizes::many_marks))]
fn put_marks(out: &mut Row<u8>, places: &[Place]) -> Result<(), NoMemory>
    requires { p.places.fits (p.pairs_of places.now) ≡ true }
    ensures { OnOk result (out.new ≡ out.old ++ p.places.spell (p.pairs_of places.now)) }
{
    put_many(out, places)
}

fn put_held_packet(out: &mut Row<u8>, number: u32, packet: &Packet) -> Result<(), NoMemory>
    requires { f.packet.fits packet.now ≡ true }
    ensures { OnOk result (out.new ≡ out.old ++ (f.number ⊗ f.packet).spell (number, packet.now)) }
{
    put_number(out, number)?;
    put_packet(out, packet)
}

fn put_all_held(out: &mut Row<u8>, held: &[(u32, Packet)]) -> Result<(), NoMemory>
    requires { All (λ pair. f.packet.fits pair.1 ≡ true) held.now }
    ensures { OnOk result (out.new ≡ out.old ++ flat_map (f.number ⊗ f.packet).spell held.now) }
{
    for pair in held {
        put_held_packet(out, pair.0, &pair.1)?;
    }
    Ok(())
}

#[tactic(auto, unfolding(crate::specs::Parts::held), using(crate::proofs::Sizes::held_many, crate::proofs::Sizes::held_fit))]
fn put_held(out: &mut Row<u8>, held: &[(u32, Packet)]) -> Result<(), NoMemory>
    requires { p.held.fits held.now ≡ true }
    ensures { OnOk result (out.new ≡ out.old ++ p.held.spell held.now) }
{
    put_word(out, held.len() as u32)?;
    put_all_held(out, held)
}

/// Adds a part: its epoch, its shard, its packets and its marks.
#[tactic(auto, unfolding(crate::specs::Parts::part))]
pub fn put_part(out: &mut Row<u8>, part: &Part) -> Result<(), NoMemory>
    requires { p.part.fits part.now ≡ true }
    ensures { OnOk result (out.new ≡ out.old ++ p.part.spell part.now) }
{
    put_shard(out, part.shard())?;
    put_epoch(out, part.epoch())?;
    put_held(out, part.held_list())?;
    put_marks(out, part.temp())?;
    put_marks(out, part.fnd())?;
    put_marks(out, part.perm())
}
