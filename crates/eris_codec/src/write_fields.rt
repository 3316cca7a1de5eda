ghost use Rattle.std.specs.Prelude.{◌≡◌, ◌<◌, ◌^◌, ◌++◌, ◌∷◌, [], length, true, OnOk};
ghost use Rattle.eris_codec.specs.Codecs.{◌⊗◌};
ghost use Rattle.eris_codec.specs.Fields as f;

use eris_base::{ClientId, Epoch, NoMemory, Phase, Place, ReplicaId, Row, ShardId, TxnId, View};
use eris_txn::{Key, Lock, Mode, Op, OpAnswer, Write};

/// A kind, a version or a tag.
pub fn put_tag(out: &mut Row<u8>, tag: u8) -> Result<(), NoMemory>
    ensures { OnOk result (out.new ≡ out.old ++ tag ∷ []) }
{
    out.push(tag)
}

#[tactic(auto, unfolding(crate::specs::Fields::byte))]
fn put_byte(out: &mut Row<u8>, byte: u8) -> Result<(), NoMemory>
    ensures { OnOk result (out.new ≡ out.old ++ f.byte.spell byte) }
{
    out.append(&byte.to_be_bytes())
}

/// Adds a number in four bytes, the highest first.
#[tactic(auto, unfolding(crate::specs::Fields::word))]
pub fn put_word(out: &mut Row<u8>, word: u32) -> Result<(), NoMemory>
    ensures { OnOk result (out.new ≡ out.old ++ f.word.spell word) }
{
    out.append(&word.to_be_bytes())
}

/// Adds a value in eight bytes, the highest first.
#[tactic(auto, unfolding(crate::specs::Fields::value))]
pub fn put_value(out: &mut Row<u8>, value: u64) -> Result<(), NoMemory>
    ensures { OnOk result (out.new ≡ out.old ++ f.value.spell value) }
{
    out.append(&value.to_be_bytes())
}

/// A count of at most 255, in one byte.
#[tactic(auto, unfolding(crate::specs::Fields::from_to))]
pub fn put_count(out: &mut Row<u8>, count: usize) -> Result<(), NoMemory>
    requires { count < 2 ^ 8 }
    ensures { OnOk result (out.new ≡ out.old ++ f.byte.spell count) }
{
    put_byte(out, count as u8)
}

/// Adds a number, at least 1, in four bytes.
#[tactic(auto, unfolding(crate::specs::Fields::number))]
pub fn put_number(out: &mut Row<u8>, number: u32) -> Result<(), NoMemory>
    ensures { OnOk result (out.new ≡ out.old ++ f.number.spell number) }
{
    put_word(out, number)
}

/// Adds a shard, 0 to 63, in one byte.
#[tactic(auto, unfolding(crate::specs::Fields::shard, crate::specs::Fields::from_to))]
pub fn put_shard(out: &mut Row<u8>, shard: ShardId) -> Result<(), NoMemory>
    ensures { OnOk result (out.new ≡ out.old ++ f.shard.spell shard) }
{
    put_byte(out, shard.0)
}

/// Adds a replica, 0 to 6, in one byte.
#[tactic(auto, unfolding(crate::specs::Fields::replica, crate::specs::Fields::from_to))]
pub fn put_replica(out: &mut Row<u8>, replica: ReplicaId) -> Result<(), NoMemory>
    ensures { OnOk result (out.new ≡ out.old ++ f.replica.spell replica) }
{
    put_byte(out, replica.0)
}

/// Adds a client, 0 to 127, in one byte.
#[tactic(auto, unfolding(crate::specs::Fields::client, crate::specs::Fields::from_to))]
pub fn put_client(out: &mut Row<u8>, client: ClientId) -> Result<(), NoMemory>
    ensures { OnOk result (out.new ≡ out.old ++ f.client.spell client) }
{
    put_byte(out, client.0)
}

/// Adds an epoch, in four bytes.
#[tactic(auto, unfolding(crate::specs::Fields::epoch))]
pub fn put_epoch(out: &mut Row<u8>, epoch: Epoch) -> Result<(), NoMemory>
    ensures { OnOk result (out.new ≡ out.old ++ f.epoch.spell epoch) }
{
    put_word(out, epoch.0)
}

/// Adds a view, in four bytes.
#[tactic(auto, unfolding(crate::specs::Fields::view))]
pub fn put_view(out: &mut Row<u8>, view: View) -> Result<(), NoMemory>
    ensures { OnOk result (out.new ≡ out.old ++ f.view.spell view) }
{
    put_word(out, view.0)
}

/// Adds a phase, in one byte.
#[tactic(auto, unfolding(crate::specs::Fields::phase, crate::specs::Fields::from_to))]
pub fn put_phase(out: &mut Row<u8>, phase: Phase) -> Result<(), NoMemory>
    ensures { OnOk result (out.new ≡ out.old ++ f.phase.spell phase) }
{
    match phase {
        Phase::Whole => put_byte(out, 0),
        Phase::Prelim => put_byte(out, 1),
        Phase::Conclude => put_byte(out, 2),
    }
}

/// Adds the id of a transaction.
#[tactic(auto, unfolding(crate::specs::Fields::id))]
pub fn put_id(out: &mut Row<u8>, id: TxnId) -> Result<(), NoMemory>
    ensures { OnOk result (out.new ≡ out.old ++ f.id.spell id) }
{
    put_client(out, id.client)?;
    put_number(out, id.number)
}

/// Adds a place: epoch, shard and number.
#[tactic(auto, unfolding(crate::specs::Fields::place))]
pub fn put_place(out: &mut Row<u8>, place: Place) -> Result<(), NoMemory>
    ensures { OnOk result (out.new ≡ out.old ++ f.place.spell place) }
{
    put_epoch(out, place.epoch)?;
    put_shard(out, place.shard)?;
    put_number(out, place.number)
}

/// A shard and a number, as lists of places have them.
pub fn put_pair(out: &mut Row<u8>, shard: ShardId, number: u32) -> Result<(), NoMemory>
    ensures { OnOk result (out.new ≡ out.old ++ (f.shard ⊗ f.number).spell (shard, number)) }
{
    put_shard(out, shard)?;
    put_number(out, number)
}

#[tactic(auto, unfolding(crate::specs::Fields::name, crate::specs::Fields::from_to))]
fn put_name(out: &mut Row<u8>, key: &Key) -> Result<(), NoMemory>
    ensures { OnOk result (out.new ≡ out.old ++ f.name.spell key.now.name) }
{
    let name = key.name.bytes();
    put_count(out, name.len())?;
    out.append(name)
}

/// Adds a key: its shard and its name.
#[tactic(auto, unfolding(crate::specs::Fields::key))]
pub fn put_key(out: &mut Row<u8>, key: &Key) -> Result<(), NoMemory>
    ensures { OnOk result (out.new ≡ out.old ++ f.key.spell key.now) }
{
    put_shard(out, key.shard)?;
    put_name(out, key)
}

#[tactic(auto, unfolding(crate::specs::Fields::mode, crate::specs::Fields::from_to))]
fn put_mode(out: &mut Row<u8>, mode: Mode) -> Result<(), NoMemory>
    ensures { OnOk result (out.new ≡ out.old ++ f.mode.spell mode) }
{
    match mode {
        Mode::Shared => put_byte(out, 0),
        Mode::Exclusive => put_byte(out, 1),
    }
}

/// Adds a lock: its key and how it is held.
#[tactic(auto, unfolding(crate::specs::Fields::lock))]
pub fn put_lock(out: &mut Row<u8>, lock: &Lock) -> Result<(), NoMemory>
    ensures { OnOk result (out.new ≡ out.old ++ f.lock.spell lock.now) }
{
    put_key(out, &lock.key)?;
    put_mode(out, lock.mode)
}

/// Adds a write: its key and the value or nothing.
#[tactic(auto, unfolding(crate::specs::Fields::write))]
pub fn put_write(out: &mut Row<u8>, write: &Write) -> Result<(), NoMemory>
    ensures { OnOk result (out.new ≡ out.old ++ f.write.spell write.now) }
{
    put_key(out, &write.key)?;
    put_value(out, write.value)
}

fn put_keyed(out: &mut Row<u8>, tag: u8, key: &Key) -> Result<(), NoMemory>
    ensures { OnOk result (out.new ≡ out.old ++ tag ∷ f.key.spell key.now) }
{
    put_tag(out, tag)?;
    put_key(out, key)
}

fn put_valued(out: &mut Row<u8>, tag: u8, key: &Key, value: u64) -> Result<(), NoMemory>
    ensures { OnOk result (out.new ≡ out.old ++ tag ∷ (f.key ⊗ f.value).spell (key.now, value)) }
{
    put_tag(out, tag)?;
    put_key(out, key)?;
    put_value(out, value)
}

fn put_swap(out: &mut Row<u8>, key: &Key, expected: u64, value: u64) -> Result<(), NoMemory>
    ensures { OnOk result (out.new ≡ out.old ++ 5 ∷ (f.key ⊗ f.value ⊗ f.value).spell (key.now, (expected, value))) }
{
    put_tag(out, 5)?;
    put_key(out, key)?;
    put_value(out, expected)?;
    put_value(out, value)
}

/// Adds an operation.
#[tactic(auto, unfolding(crate::specs::Fields::op, crate::specs::Fields::spell_op))]
pub fn put_op(out: &mut Row<u8>, op: &Op) -> Result<(), NoMemory>
    ensures { OnOk result (out.new ≡ out.old ++ f.op.spell op.now) }
{
    match op {
        Op::Get(key) => put_keyed(out, 1, key),
        Op::Put(key, value) => put_valued(out, 2, key, *value),
        Op::Del(key) => put_keyed(out, 3, key),
        Op::Add(key, value) => put_valued(out, 4, key, *value),
        Op::Cas(key, expected, value) => put_swap(out, key, *expected, *value),
    }
}

/// A value behind its tag 1.
fn put_some(out: &mut Row<u8>, value: u64) -> Result<(), NoMemory>
    ensures { OnOk result (out.new ≡ out.old ++ 1 ∷ f.value.spell value) }
{
    put_tag(out, 1)?;
    put_value(out, value)
}

/// Adds the answer of an operation.
#[tactic(auto, unfolding(crate::specs::Fields::op_answer, crate::specs::Fields::spell_op_answer))]
pub fn put_op_answer(out: &mut Row<u8>, answer: &OpAnswer) -> Result<(), NoMemory>
    ensures { OnOk result (out.new ≡ out.old ++ f.op_answer.spell answer.now) }
{
    match answer {
        OpAnswer::Value(value) => put_some(out, *value),
        OpAnswer::Absent => put_tag(out, 2),
        OpAnswer::Done => put_tag(out, 3),
        OpAnswer::Yes => put_tag(out, 4),
        OpAnswer::No => put_tag(out, 5),
    }
}

/// Adds what was found at a key: a value or nothing.
#[tactic(auto, unfolding(crate::specs::Fields::found, crate::specs::Fields::spell_found))]
pub fn put_found(out: &mut Row<u8>, found: &Option<u64>) -> Result<(), NoMemory>
    ensures { OnOk result (out.new ≡ out.old ++ f.found.spell found.now) }
{
    match found {
        None => put_tag(out, 0),
        Some(value) => put_some(out, *value),
    }
}
