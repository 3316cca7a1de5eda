ghost use Rattle.std.specs.Prelude.{◌≡◌, ◌++◌, ◌∷◌, codes, map, OnOk};
ghost use Rattle.eris_report.specs.HistoryText.{answer_words};
ghost use Rattle.eris_trace.specs.MessageText.{epoch_state_words, epoch_view_words, half_words, log_words, message_words, phase_word, replica_words, settled_words, speaker_words, start_epoch_words, start_words, state_words};
ghost use Rattle.eris_trace.specs.BodyText.{stamp_words};
ghost use Rattle.eris_words.specs.Words.{spaced};

use crate::body_text::{put_asker, put_body, put_packet, put_places, put_stamp};
use crate::happened_text::put_answer;
use crate::part_text::{put_epoch_shard, put_packets, put_part, put_whole_place};
use eris_base::{Epoch, NoMemory, Phase, ReplicaId, Row, ShardId, Stamp, TxnId, View};
use eris_log::Part;
use eris_msg::Message;
use eris_txn::{Answer, Packet};
use eris_words::{put_count, put_id, put_word};

fn put_phase(out: &mut Row<u8>, phase: Phase) -> Result<(), NoMemory>
    ensures { OnOk result (out.new ≡ out.old ++ 32 ∷ phase_word phase) }
{
    match phase {
        Phase::Whole => put_word(out, b"whole"),
        Phase::Prelim => put_word(out, b"prelim"),
        Phase::Conclude => put_word(out, b"conclude"),
    }
}

fn put_replica(out: &mut Row<u8>, shard: ShardId, replica: ReplicaId) -> Result<(), NoMemory>
    ensures { OnOk result (out.new ≡ out.old ++ spaced (replica_words shard replica)) }
{
    put_count(out, b"shard", u32::from(shard.0))?;
    put_count(out, b"replica", u32::from(replica.0))
}

fn put_speaker(
    out: &mut Row<u8>,
    view: View,
    shard: ShardId,
    replica: ReplicaId,
) -> Result<(), NoMemory>
    ensures { OnOk result (out.new ≡ out.old ++ spaced (speaker_words view shard replica)) }
{
    put_count(out, b"view", view.0)?;
    put_replica(out, shard, replica)
}

#[tactic(auto, unfolding(crate::specs::MessageText::epoch_view_words))]
fn put_epoch_view(out: &mut Row<u8>, epoch: Epoch, view: View) -> Result<(), NoMemory>
    ensures { OnOk result (out.new ≡ out.old ++ spaced (epoch_view_words epoch view)) }
{
    put_count(out, b"epoch", epoch.0)?;
    put_count(out, b"view", view.0)
}

#[tactic(auto, unfolding(crate::specs::MessageText::settled_words))]
fn put_settled(out: &mut Row<u8>, places: &[(ShardId, u32)]) -> Result<(), NoMemory>
    ensures { OnOk result (out.new ≡ out.old ++ spaced (settled_words places.now)) }
{
    put_word(out, b"places")?;
    put_places(out, places)
}

#[tactic(auto, unfolding(crate::specs::MessageText::log_words))]
fn put_log(out: &mut Row<u8>, packets: &[Packet]) -> Result<(), NoMemory>
    ensures { OnOk result (out.new ≡ out.old ++ spaced (log_words packets.now)) }
{
    put_word(out, b"packets")?;
    put_packets(out, packets)
}

fn put_half(out: &mut Row<u8>, id: TxnId, phase: Phase) -> Result<(), NoMemory>
    ensures { OnOk result (out.new ≡ out.old ++ spaced (half_words id phase)) }
{
    put_word(out, b"id")?;
    put_id(out, id)?;
    put_word(out, b"phase")?;
    put_phase(out, phase)
}

fn put_stamped(out: &mut Row<u8>, stamp: &Stamp, id: TxnId, phase: Phase) -> Result<(), NoMemory>
    ensures { OnOk result (out.new ≡ out.old ++ spaced (stamp_words stamp.now ++ half_words id phase)) }
{
    put_stamp(out, stamp)?;
    put_half(out, id, phase)
}

fn put_answered(out: &mut Row<u8>, answer: &Answer) -> Result<(), NoMemory>
    ensures { OnOk result (out.new ≡ out.old ++ spaced (codes "answer" ∷ answer_words answer.now)) }
{
    put_word(out, b"answer")?;
    put_answer(out, answer)
}

#[tactic(auto, unfolding(crate::specs::MessageText::state_words))]
fn put_state(
    out: &mut Row<u8>,
    replica: ReplicaId,
    epoch: Epoch,
    part: &Part,
) -> Result<(), NoMemory>
    ensures { OnOk result (out.new ≡ out.old ++ spaced (state_words replica epoch part.now)) }
{
    put_count(out, b"replica", u32::from(replica.0))?;
    put_count(out, b"epoch", epoch.0)?;
    put_part(out, part)
}

#[tactic(auto, unfolding(crate::specs::MessageText::start_words))]
fn put_start(
    out: &mut Row<u8>,
    epoch: Epoch,
    shard: ShardId,
    packets: &[Packet],
) -> Result<(), NoMemory>
    ensures { OnOk result (out.new ≡ out.old ++ spaced (start_words epoch shard packets.now)) }
{
    put_epoch_shard(out, epoch, shard)?;
    put_log(out, packets)
}

fn put_epoch_state(
    out: &mut Row<u8>,
    replica: ReplicaId,
    epoch: Epoch,
    part: &Part,
) -> Result<(), NoMemory>
    ensures { OnOk result (out.new ≡ out.old ++ spaced (epoch_state_words replica epoch part.now)) }
{
    put_word(out, b"EpochState")?;
    put_state(out, replica, epoch, part)
}

fn put_start_epoch(
    out: &mut Row<u8>,
    epoch: Epoch,
    shard: ShardId,
    packets: &[Packet],
) -> Result<(), NoMemory>
    ensures { OnOk result (out.new ≡ out.old ++ spaced (start_epoch_words epoch shard packets.now)) }
{
    put_word(out, b"StartEpoch")?;
    put_start(out, epoch, shard, packets)
}

/// Adds a message: its kind, and its fields by their names.
#[tactic(auto, unfolding(crate::specs::MessageText::message_words))]
pub(crate) fn put_message(out: &mut Row<u8>, message: &Message) -> Result<(), NoMemory>
    ensures { OnOk result (out.new ≡ out.old ++ spaced (message_words message.now)) }
{
    match message {
        Message::Ask { asker, id, body } => {
            put_word(out, b"Ask")?;
            put_asker(out, *asker)?;
            put_word(out, b"id")?;
            put_id(out, *id)?;
            put_word(out, b"body")?;
            put_body(out, body)
        }
        Message::Txn { packet } => {
            put_word(out, b"Txn")?;
            put_packet(out, packet)
        }
        Message::Vouch {
            view,
            shard,
            replica,
            stamp,
            id,
            phase,
        } => {
            put_word(out, b"Vouch")?;
            put_speaker(out, *view, *shard, *replica)?;
            put_stamped(out, stamp, *id, *phase)
        }
        Message::Reply {
            view,
            shard,
            replica,
            stamp,
            id,
            phase,
            answer,
        } => {
            put_word(out, b"Reply")?;
            put_speaker(out, *view, *shard, *replica)?;
            put_stamped(out, stamp, *id, *phase)?;
            put_answered(out, answer)
        }
        Message::Late {
            shard,
            replica,
            id,
            phase,
            answer,
        } => {
            put_word(out, b"Late")?;
            put_replica(out, *shard, *replica)?;
            put_half(out, *id, *phase)?;
            put_answered(out, answer)
        }
        Message::Find { replica, place } => {
            put_word(out, b"Find")?;
            put_count(out, b"replica", u32::from(replica.0))?;
            put_whole_place(out, *place)
        }
        Message::Request { place } => {
            put_word(out, b"Request")?;
            put_whole_place(out, *place)
        }
        Message::Has { packet } => {
            put_word(out, b"Has")?;
            put_packet(out, packet)
        }
        Message::TempDropped {
            place,
            shard,
            replica,
            view,
        } => {
            put_word(out, b"TempDropped")?;
            put_whole_place(out, *place)?;
            put_replica(out, *shard, *replica)?;
            put_count(out, b"view", view.0)
        }
        Message::Found { packet } => {
            put_word(out, b"Found")?;
            put_packet(out, packet)
        }
        Message::Dropped { place } => {
            put_word(out, b"Dropped")?;
            put_whole_place(out, *place)
        }
        Message::ViewChange {
            replica,
            view,
            part,
        } => {
            put_word(out, b"ViewChange")?;
            put_count(out, b"replica", u32::from(replica.0))?;
            put_count(out, b"view", view.0)?;
            put_part(out, part)
        }
        Message::StartView { view, part } => {
            put_word(out, b"StartView")?;
            put_count(out, b"view", view.0)?;
            put_part(out, part)
        }
        Message::SyncAsk { epoch, view } => {
            put_word(out, b"SyncAsk")?;
            put_epoch_view(out, *epoch, *view)
        }
        Message::Ack {
            replica,
            epoch,
            view,
            length,
        } => {
            put_word(out, b"Ack")?;
            put_count(out, b"replica", u32::from(replica.0))?;
            put_epoch_view(out, *epoch, *view)?;
            put_count(out, b"length", *length)
        }
        Message::Settled {
            epoch,
            view,
            number,
            places,
        } => {
            put_word(out, b"Settled")?;
            put_epoch_view(out, *epoch, *view)?;
            put_count(out, b"number", *number)?;
            put_settled(out, places.as_slice())
        }
        Message::NewEpoch {
            shard,
            replica,
            epoch,
        } => {
            put_word(out, b"NewEpoch")?;
            put_replica(out, *shard, *replica)?;
            put_count(out, b"epoch", epoch.0)
        }
        Message::EpochAsk { epoch } => {
            put_word(out, b"EpochAsk")?;
            put_count(out, b"epoch", epoch.0)
        }
        Message::EpochState {
            replica,
            epoch,
            part,
        } => { put_epoch_state(out, *replica, *epoch, part) }
        Message::StartEpoch {
            epoch,
            shard,
            packets,
        } => { put_start_epoch(out, *epoch, *shard, packets.as_slice()) }
    }
}
