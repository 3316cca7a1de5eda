ghost use Rattle.std.specs.Prelude.{◌≡◌, ◌∷◌, ◌++◌, map, OnOk};
ghost use Rattle.std.specs.List.{flat_map};
ghost use Rattle.eris_trace.specs.BodyText.{asker_words, body_words, lock_word, packet_words, stamp_words, write_words};
ghost use Rattle.eris_words.specs.Words.{key_word, place_word, spaced};

use eris_base::{ClientId, NoMemory, Row, ShardId, Stamp};
use eris_txn::{Body, Key, Lock, Packet, Write};
use eris_words::{put_count, put_id, put_number, put_ops, put_place, put_word};

/// Adds the body: its operations, or what it does and to which keys.
pub(crate) fn put_body(out: &mut Row<u8>, body: &Body) -> Result<(), NoMemory>
    ensures { OnOk result (out.new ≡ out.old ++ spaced (body_words body.now)) }
{
    match body {
        Body::Independent(ops) => put_ops(out, ops.as_slice()),
        Body::Prelim(locks) => {
            put_word(out, b"lock")?;
            put_locks(out, locks.as_slice())
        }
        Body::Commit(keys, writes) => {
            put_word(out, b"commit")?;
            put_keys(out, keys.as_slice())?;
            put_writes(out, writes.as_slice())
        }
        Body::Abort(keys) => {
            put_word(out, b"abort")?;
            put_keys(out, keys.as_slice())
        }
    }
}

// A key: its shard and its name, with `/` between them.
fn put_key(out: &mut Row<u8>, key: &Key) -> Result<(), NoMemory>
    ensures { OnOk result (out.new ≡ out.old ++ 32 ∷ key_word key.now) }
{
    put_number(out, u64::from(key.shard.0))?;
    out.push(b'/')?;
    out.append(key.name.bytes())
}

fn put_locks(out: &mut Row<u8>, locks: &[Lock]) -> Result<(), NoMemory>
    ensures { OnOk result (out.new ≡ out.old ++ spaced (map lock_word locks.now)) }
{
    for lock in locks {
        put_key(out, &lock.key)?;
    }
    Ok(())
}

fn put_keys(out: &mut Row<u8>, keys: &[Key]) -> Result<(), NoMemory>
    ensures { OnOk result (out.new ≡ out.old ++ spaced (map key_word keys.now)) }
{
    for key in keys {
        put_key(out, key)?;
    }
    Ok(())
}

fn put_writes(out: &mut Row<u8>, writes: &[Write]) -> Result<(), NoMemory>
    ensures { OnOk result (out.new ≡ out.old ++ spaced (flat_map write_words writes.now)) }
{
    for write in writes {
        put_word(out, b";")?;
        put_word(out, b"set")?;
        put_key(out, &write.key)?;
        put_number(out, write.value)?;
    }
    Ok(())
}

/// Adds a stamp: its epoch, and the shards with their numbers.
pub(crate) fn put_stamp(out: &mut Row<u8>, stamp: &Stamp) -> Result<(), NoMemory>
    ensures { OnOk result (out.new ≡ out.old ++ spaced (stamp_words stamp.now)) }
{
    put_count(out, b"stamp", stamp.epoch.0)?;
    put_places(out, stamp.places())
}

pub(crate) fn put_places(out: &mut Row<u8>, places: &[(ShardId, u32)]) -> Result<(), NoMemory>
    ensures { OnOk result (out.new ≡ out.old ++ spaced (map place_word places.now)) }
{
    for place in places {
        put_place(out, place)?;
    }
    Ok(())
}

/// Adds the client that gets the answers.
pub(crate) fn put_asker(out: &mut Row<u8>, asker: ClientId) -> Result<(), NoMemory>
    ensures { OnOk result (out.new ≡ out.old ++ spaced (asker_words asker)) }
{
    put_count(out, b"asker", u32::from(asker.0))
}

/// Adds a packet: its stamp, its id, its asker and its body.
#[tactic(auto, unfolding(crate::specs::BodyText::packet_words))]
pub(crate) fn put_packet(out: &mut Row<u8>, packet: &Packet) -> Result<(), NoMemory>
    ensures { OnOk result (out.new ≡ out.old ++ spaced (packet_words packet.now)) }
{
    put_stamp(out, &packet.stamp)?;
    put_word(out, b"id")?;
    put_id(out, packet.id)?;
    put_asker(out, packet.asker)?;
    put_word(out, b"body")?;
    put_body(out, &packet.body)
}
