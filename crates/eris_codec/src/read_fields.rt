ghost use Rattle.std.specs.Prelude.{◌≡◌, ◌≤◌, [], ◌∷◌, length, take, drop, true, IfOk, OnOk};
ghost use Rattle.std.specs.List.{list_all};
ghost use Rattle.eris_base.specs.Places.{is_later};
ghost use Rattle.eris_txn.specs.Names.{is_name_byte};
ghost use Rattle.eris_codec.specs.Answers.{Gives};
ghost use Rattle.eris_codec.specs.Codecs.{read_items, checked};
ghost use Rattle.eris_codec.specs.Fields as f;

use crate::fault::{DecodeReason, Stop};
use crate::input::{Input, bad};
use eris_base::{ClientId, Epoch, Phase, Place, ReplicaId, Row, ShardId, Stamp, TxnId, View};
use eris_txn::{Key, Lock, Mode, Name, Write, is_name_byte};
use std::alloc::Global;

/// Reads a number, at least 1, in four bytes.
#[tactic(auto, unfolding(crate::specs::Fields::number))]
pub fn read_number(input: &mut Input) -> Result<u32, Stop>
    ensures { Gives (λ x. (x, input.new)) result (f.number.read input.old) }
{
    let left = input.left();
    let number = input.word()?;
    if number == 0 {
        return bad(left, DecodeReason::Range);
    }
    Ok(number)
}

/// Reads a shard, 0 to 63, in one byte.
#[tactic(auto, unfolding(crate::specs::Fields::shard))]
pub fn read_shard(input: &mut Input) -> Result<ShardId, Stop>
    ensures { Gives (λ x. (x, input.new)) result (f.shard.read input.old) }
{
    Ok(ShardId(input.byte_in(0, 63)?))
}

/// Reads a replica, 0 to 6, in one byte.
#[tactic(auto, unfolding(crate::specs::Fields::replica))]
pub fn read_replica(input: &mut Input) -> Result<ReplicaId, Stop>
    ensures { Gives (λ x. (x, input.new)) result (f.replica.read input.old) }
{
    Ok(ReplicaId(input.byte_in(0, 6)?))
}

/// Reads a client, 0 to 127, in one byte.
#[tactic(auto, unfolding(crate::specs::Fields::client))]
pub fn read_client(input: &mut Input) -> Result<ClientId, Stop>
    ensures { Gives (λ x. (x, input.new)) result (f.client.read input.old) }
{
    Ok(ClientId(input.byte_in(0, 127)?))
}

/// Reads an epoch, in four bytes.
#[tactic(auto, unfolding(crate::specs::Fields::epoch))]
pub fn read_epoch(input: &mut Input) -> Result<Epoch, Stop>
    ensures { Gives (λ x. (x, input.new)) result (f.epoch.read input.old) }
{
    Ok(Epoch(input.word()?))
}

/// Reads a view, in four bytes.
#[tactic(auto, unfolding(crate::specs::Fields::view))]
pub fn read_view(input: &mut Input) -> Result<View, Stop>
    ensures { Gives (λ x. (x, input.new)) result (f.view.read input.old) }
{
    Ok(View(input.word()?))
}

/// Reads a phase, in one byte.
#[tactic(auto, unfolding(crate::specs::Fields::phase))]
pub fn read_phase(input: &mut Input) -> Result<Phase, Stop>
    ensures { Gives (λ x. (x, input.new)) result (f.phase.read input.old) }
{
    match input.byte_in(0, 2)? {
        0 => Ok(Phase::Whole),
        1 => Ok(Phase::Prelim),
        _ => Ok(Phase::Conclude),
    }
}

/// Reads the id of a transaction.
#[tactic(auto, unfolding(crate::specs::Fields::id))]
pub fn read_id(input: &mut Input) -> Result<TxnId, Stop>
    ensures { Gives (λ x. (x, input.new)) result (f.id.read input.old) }
{
    let client = read_client(input)?;
    let number = read_number(input)?;
    Ok(TxnId { client, number })
}

/// Reads a place: epoch, shard and number.
#[tactic(auto, unfolding(crate::specs::Fields::place))]
pub fn read_place(input: &mut Input) -> Result<Place, Stop>
    ensures { Gives (λ x. (x, input.new)) result (f.place.read input.old) }
{
    let epoch = read_epoch(input)?;
    let shard = read_shard(input)?;
    let number = read_number(input)?;
    Ok(Place {
        epoch,
        shard,
        number,
    })
}

/// Whether the shard is above that of the last place.
#[tactic(auto, unfolding(crate::specs::Fields::shard_before))]
fn is_later(before: &[(ShardId, u32)], shard: ShardId) -> bool
    ensures { result ≡ is_later (f.shard_before before.now) shard }
{
    match before.last() {
        None => true,
        Some(place) => place.0.0 < shard.0,
    }
}

#[tactic(auto, unfolding(crate::specs::Fields::stamp_place))]
fn read_stamp_place(before: &[(ShardId, u32)], input: &mut Input) -> Result<(ShardId, u32), Stop>
    ensures { Gives (λ x. (x, input.new)) result ((f.stamp_place before.now).read input.old) }
{
    let left = input.left();
    let shard = read_shard(input)?;
    if !is_later(before, shard) {
        return bad(left, DecodeReason::Order);
    }
    let number = read_number(input)?;
    Ok((shard, number))
}

fn read_stamp_places(
    alloc: Global,
    count: u8,
    input: &mut Input,
) -> Result<Row<(ShardId, u32)>, Stop>
    ensures { Gives (λ x. (x, input.new)) result (read_items f.stamp_place [] count input.old) }
{
    let mut places = Row::new(alloc);
    for _ in 0..count {
        let place = read_stamp_place(places.as_slice(), input)?;
        places.push(place)?;
    }
    Ok(places)
}

/// Reads a stamp, whose shards ascend.
#[tactic(auto, unfolding(crate::specs::Fields::stamp))]
pub fn read_stamp(alloc: Global, input: &mut Input) -> Result<Stamp, Stop>
    ensures { Gives (λ x. (x, input.new)) result (f.stamp.read input.old) }
{
    let epoch = read_epoch(input)?;
    let count = input.byte_in(1, 64)?;
    let places = read_stamp_places(alloc, count, input)?;
    Ok(Stamp { epoch, places })
}

fn read_name_byte(input: &mut Input) -> Result<u8, Stop>
    ensures gives { Gives (λ x. (x, input.new)) result ((checked is_name_byte DecodeReason.Range f.byte).read input.old) }
    ensures byte { IfOk result (λ byte. input.old ≡ byte ∷ input.new) }
    ensures allowed { IfOk result (λ byte. is_name_byte byte ≡ true) }
{
    let left = input.left();
    let byte = input.byte()?;
    if !is_name_byte(byte) {
        return bad(left, DecodeReason::Range);
    }
    Ok(byte)
}

/// Passes over so many bytes of a name.
fn pass_name(count: u8, input: &mut Input) -> Result<(), Stop>
    ensures gives { Gives (λ _. (take count input.old, drop count input.old)) result
        (read_items (λ _. checked is_name_byte DecodeReason.Range f.byte) [] count input.old) }
    ensures moved { OnOk result (input.new ≡ drop count input.old) }
    ensures whole { OnOk result (count ≤ length input.old) }
    ensures allowed { OnOk result (list_all is_name_byte (take count input.old) ≡ true) }
{
    for _ in 0..count {
        read_name_byte(input)?;
    }
    Ok(())
}

#[tactic(auto, unfolding(crate::specs::Fields::name))]
fn read_name(input: &mut Input) -> Result<Name, Stop>
    ensures { Gives (λ x. (x, input.new)) result (f.name.read input.old) }
{
    let count = input.byte_in(1, 16)?;
    let text = input.rest();
    pass_name(count, input)?;
    match Name::new(&text[..count as usize]) {
        Some(name) => Ok(name),
        None => unreachable!(),
    }
}

/// Reads a key: its shard and its name.
#[tactic(auto, unfolding(crate::specs::Fields::key))]
pub fn read_key(input: &mut Input) -> Result<Key, Stop>
    ensures { Gives (λ x. (x, input.new)) result (f.key.read input.old) }
{
    let shard = read_shard(input)?;
    let name = read_name(input)?;
    Ok(Key { shard, name })
}

#[tactic(auto, unfolding(crate::specs::Fields::mode))]
fn read_mode(input: &mut Input) -> Result<Mode, Stop>
    ensures { Gives (λ x. (x, input.new)) result (f.mode.read input.old) }
{
    match input.byte_in(0, 1)? {
        0 => Ok(Mode::Shared),
        _ => Ok(Mode::Exclusive),
    }
}

/// Reads a lock: its key and how it is held.
#[tactic(auto, unfolding(crate::specs::Fields::lock))]
pub fn read_lock(input: &mut Input) -> Result<Lock, Stop>
    ensures { Gives (λ x. (x, input.new)) result (f.lock.read input.old) }
{
    let key = read_key(input)?;
    let mode = read_mode(input)?;
    Ok(Lock { key, mode })
}

/// Reads a write: its key and the value or nothing.
#[tactic(auto, unfolding(crate::specs::Fields::write))]
pub fn read_write(input: &mut Input) -> Result<Write, Stop>
    ensures { Gives (λ x. (x, input.new)) result (f.write.read input.old) }
{
    let key = read_key(input)?;
    let value = input.value()?;
    Ok(Write { key, value })
}
