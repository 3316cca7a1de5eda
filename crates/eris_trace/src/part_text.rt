ghost use Rattle.std.specs.Prelude.{◌≡◌, ◌∷◌, ◌++◌, map, OnOk};
ghost use Rattle.eris_trace.specs.PartText.{epoch_shard_words, held_word, list_words, own_place_word, packet_word, part_words, place_words};
ghost use Rattle.eris_words.specs.Words.{spaced};

use eris_base::{Epoch, NoMemory, Place, Row, ShardId};
use eris_log::Part;
use eris_txn::Packet;
use eris_words::{put_count, put_id, put_number, put_place, put_word};

/// Adds a place: its epoch, and its shard with its number.
pub(crate) fn put_whole_place(out: &mut Row<u8>, place: Place) -> Result<(), NoMemory>
    ensures { OnOk result (out.new ≡ out.old ++ spaced (place_words place)) }
{
    put_count(out, b"place", place.epoch.0)?;
    put_own_place(out, &place)
}

// A place without its epoch.
fn put_own_place(out: &mut Row<u8>, place: &Place) -> Result<(), NoMemory>
    ensures { OnOk result (out.new ≡ out.old ++ 32 ∷ own_place_word place.now) }
{
    put_place(out, &(place.shard, place.number))
}

fn put_own_places(out: &mut Row<u8>, places: &[Place]) -> Result<(), NoMemory>
    ensures { OnOk result (out.new ≡ out.old ++ spaced (map own_place_word places.now)) }
{
    for place in places {
        put_own_place(out, place)?;
    }
    Ok(())
}

fn put_held(out: &mut Row<u8>, held: &[(u32, Packet)]) -> Result<(), NoMemory>
    ensures { OnOk result (out.new ≡ out.old ++ spaced (map held_word held.now)) }
{
    for entry in held {
        put_number(out, u64::from(entry.0))?;
    }
    Ok(())
}

/// Adds a part: its epoch and shard, the numbers that are held, and the places that were dropped for a time, found, and
/// dropped for good.
#[tactic(auto, unfolding(crate::specs::PartText::part_words))]
pub(crate) fn put_part(out: &mut Row<u8>, part: &Part) -> Result<(), NoMemory>
    ensures { OnOk result (out.new ≡ out.old ++ spaced (part_words part.now)) }
{
    put_word(out, b"part")?;
    put_epoch_shard(out, part.epoch(), part.shard())?;
    put_lists(out, part)
}

/// Adds an epoch and a shard.
#[tactic(auto, unfolding(crate::specs::PartText::epoch_shard_words))]
pub(crate) fn put_epoch_shard(
    out: &mut Row<u8>,
    epoch: Epoch,
    shard: ShardId,
) -> Result<(), NoMemory>
    ensures { OnOk result (out.new ≡ out.old ++ spaced (epoch_shard_words epoch shard)) }
{
    put_count(out, b"epoch", epoch.0)?;
    put_count(out, b"shard", u32::from(shard.0))
}

#[tactic(auto, unfolding(crate::specs::PartText::list_words))]
fn put_lists(out: &mut Row<u8>, part: &Part) -> Result<(), NoMemory>
    ensures { OnOk result (out.new ≡ out.old ++ spaced (list_words part.now)) }
{
    put_word(out, b"held")?;
    put_held(out, part.held_list())?;
    put_word(out, b"temp")?;
    put_own_places(out, part.temp())?;
    put_word(out, b"found")?;
    put_own_places(out, part.fnd())?;
    put_word(out, b"dropped")?;
    put_own_places(out, part.perm())
}

/// Adds the packets that an epoch begins with, each by its id.
pub(crate) fn put_packets(out: &mut Row<u8>, packets: &[Packet]) -> Result<(), NoMemory>
    ensures { OnOk result (out.new ≡ out.old ++ spaced (map packet_word packets.now)) }
{
    for packet in packets {
        put_id(out, packet.id)?;
    }
    Ok(())
}
