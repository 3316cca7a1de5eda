ghost use Rattle.std.specs.Prelude.{◌≡◌, ◌++◌, true, OnOk};
ghost use Rattle.eris_codec.specs.Codecs.{◌⊗◌};
ghost use Rattle.eris_codec.specs.Fields as f;
ghost use Rattle.eris_msg.specs.Messages as m;

use crate::message::Message;
use eris_base::{
    ClientId, Epoch, NoMemory, Phase, Place, ReplicaId, Row, ShardId, Stamp, TxnId, View,
};
use eris_codec::{
    put_answer, put_body, put_client, put_epoch, put_id, put_number, put_packet, put_packets,
    put_part, put_phase, put_place, put_places, put_replica, put_shard, put_stamp, put_tag,
    put_view, put_word,
};
use eris_log::Part;
use eris_txn::{Answer, Body, Packet};

/// What a learner answers to a phase of a transaction.
fn put_outcome(out: &mut Row<u8>, id: TxnId, phase: Phase, answer: &Answer) -> Result<(), NoMemory>
    requires { (f.id ⊗ f.phase ⊗ f.answer).fits (id, (phase, answer.now)) ≡ true }
    ensures { OnOk result (out.new ≡ out.old ++ (f.id ⊗ f.phase ⊗ f.answer).spell (id, (phase, answer.now))) }
{
    put_id(out, id)?;
    put_phase(out, phase)?;
    put_answer(out, answer)
}

#[tactic(auto, unfolding(crate::specs::Messages::ask))]
fn put_ask(out: &mut Row<u8>, asker: ClientId, id: TxnId, body: &Body) -> Result<(), NoMemory>
    requires { m.ask.fits (asker, (id, body.now)) ≡ true }
    ensures { OnOk result (out.new ≡ out.old ++ m.ask.spell (asker, (id, body.now))) }
{
    put_client(out, asker)?;
    put_id(out, id)?;
    put_body(out, body)
}

#[tactic(auto, unfolding(crate::specs::Messages::vouch))]
fn put_vouch(
    out: &mut Row<u8>,
    view: View,
    shard: ShardId,
    replica: ReplicaId,
    stamp: &Stamp,
    id: TxnId,
    phase: Phase,
) -> Result<(), NoMemory>
    requires { m.vouch.fits (view, (shard, (replica, (stamp.now, (id, phase))))) ≡ true }
    ensures { OnOk result (out.new ≡ out.old ++ m.vouch.spell (view, (shard, (replica, (stamp.now, (id, phase)))))) }
{
    put_view(out, view)?;
    put_shard(out, shard)?;
    put_replica(out, replica)?;
    put_stamp(out, stamp)?;
    put_id(out, id)?;
    put_phase(out, phase)
}

#[tactic(auto, unfolding(crate::specs::Messages::reply))]
fn put_reply(
    out: &mut Row<u8>,
    view: View,
    shard: ShardId,
    replica: ReplicaId,
    stamp: &Stamp,
    id: TxnId,
    phase: Phase,
    answer: &Answer,
) -> Result<(), NoMemory>
    requires { m.reply.fits (view, (shard, (replica, (stamp.now, (id, (phase, answer.now)))))) ≡ true }
    ensures { OnOk result (out.new ≡ out.old ++ m.reply.spell (view, (shard, (replica, (stamp.now, (id, (phase, answer.now))))))) }
{
    put_view(out, view)?;
    put_shard(out, shard)?;
    put_replica(out, replica)?;
    put_stamp(out, stamp)?;
    put_outcome(out, id, phase, answer)
}

#[tactic(auto, unfolding(crate::specs::Messages::late))]
fn put_late(
    out: &mut Row<u8>,
    shard: ShardId,
    replica: ReplicaId,
    id: TxnId,
    phase: Phase,
    answer: &Answer,
) -> Result<(), NoMemory>
    requires { m.late.fits (shard, (replica, (id, (phase, answer.now)))) ≡ true }
    ensures { OnOk result (out.new ≡ out.old ++ m.late.spell (shard, (replica, (id, (phase, answer.now))))) }
{
    put_shard(out, shard)?;
    put_replica(out, replica)?;
    put_outcome(out, id, phase, answer)
}

#[tactic(auto, unfolding(crate::specs::Messages::find))]
fn put_find(out: &mut Row<u8>, replica: ReplicaId, place: Place) -> Result<(), NoMemory>
    ensures { OnOk result (out.new ≡ out.old ++ m.find.spell (replica, place)) }
{
    put_replica(out, replica)?;
    put_place(out, place)
}

#[tactic(auto, unfolding(crate::specs::Messages::temp_dropped))]
fn put_temp_dropped(
    out: &mut Row<u8>,
    place: Place,
    shard: ShardId,
    replica: ReplicaId,
    view: View,
) -> Result<(), NoMemory>
    ensures { OnOk result (out.new ≡ out.old ++ m.temp_dropped.spell (place, (shard, (replica, view)))) }
{
    put_place(out, place)?;
    put_shard(out, shard)?;
    put_replica(out, replica)?;
    put_view(out, view)
}

#[tactic(auto, unfolding(crate::specs::Messages::view_change))]
fn put_view_change(
    out: &mut Row<u8>,
    replica: ReplicaId,
    view: View,
    part: &Part,
) -> Result<(), NoMemory>
    requires { m.view_change.fits (replica, (view, part.now)) ≡ true }
    ensures { OnOk result (out.new ≡ out.old ++ m.view_change.spell (replica, (view, part.now))) }
{
    put_replica(out, replica)?;
    put_view(out, view)?;
    put_part(out, part)
}

#[tactic(auto, unfolding(crate::specs::Messages::start_view))]
fn put_start_view(out: &mut Row<u8>, view: View, part: &Part) -> Result<(), NoMemory>
    requires { m.start_view.fits (view, part.now) ≡ true }
    ensures { OnOk result (out.new ≡ out.old ++ m.start_view.spell (view, part.now)) }
{
    put_view(out, view)?;
    put_part(out, part)
}

#[tactic(auto, unfolding(crate::specs::Messages::sync_ask))]
fn put_sync_ask(out: &mut Row<u8>, epoch: Epoch, view: View) -> Result<(), NoMemory>
    ensures { OnOk result (out.new ≡ out.old ++ m.sync_ask.spell (epoch, view)) }
{
    put_epoch(out, epoch)?;
    put_view(out, view)
}

#[tactic(auto, unfolding(crate::specs::Messages::ack))]
fn put_ack(
    out: &mut Row<u8>,
    replica: ReplicaId,
    epoch: Epoch,
    view: View,
    length: u32,
) -> Result<(), NoMemory>
    ensures { OnOk result (out.new ≡ out.old ++ m.ack.spell (replica, (epoch, (view, length)))) }
{
    put_replica(out, replica)?;
    put_epoch(out, epoch)?;
    put_view(out, view)?;
    put_word(out, length)
}

#[tactic(auto, unfolding(crate::specs::Messages::settled))]
fn put_settled(
    out: &mut Row<u8>,
    epoch: Epoch,
    view: View,
    number: u32,
    places: &[(ShardId, u32)],
) -> Result<(), NoMemory>
    requires { m.settled.fits (epoch, (view, (number, places.now))) ≡ true }
    ensures { OnOk result (out.new ≡ out.old ++ m.settled.spell (epoch, (view, (number, places.now)))) }
{
    put_epoch(out, epoch)?;
    put_view(out, view)?;
    put_number(out, number)?;
    put_places(out, places)
}

#[tactic(auto, unfolding(crate::specs::Messages::new_epoch))]
fn put_new_epoch(
    out: &mut Row<u8>,
    shard: ShardId,
    replica: ReplicaId,
    epoch: Epoch,
) -> Result<(), NoMemory>
    ensures { OnOk result (out.new ≡ out.old ++ m.new_epoch.spell (shard, (replica, epoch))) }
{
    put_shard(out, shard)?;
    put_replica(out, replica)?;
    put_epoch(out, epoch)
}

#[tactic(auto, unfolding(crate::specs::Messages::epoch_state))]
fn put_epoch_state(
    out: &mut Row<u8>,
    replica: ReplicaId,
    epoch: Epoch,
    part: &Part,
) -> Result<(), NoMemory>
    requires { m.epoch_state.fits (replica, (epoch, part.now)) ≡ true }
    ensures { OnOk result (out.new ≡ out.old ++ m.epoch_state.spell (replica, (epoch, part.now))) }
{
    put_replica(out, replica)?;
    put_epoch(out, epoch)?;
    put_part(out, part)
}

#[tactic(auto, unfolding(crate::specs::Messages::start_epoch))]
fn put_start_epoch(
    out: &mut Row<u8>,
    epoch: Epoch,
    shard: ShardId,
    packets: &[Packet],
) -> Result<(), NoMemory>
    requires { m.start_epoch.fits (epoch, (shard, packets.now)) ≡ true }
    ensures { OnOk result (out.new ≡ out.old ++ m.start_epoch.spell (epoch, (shard, packets.now))) }
{
    put_epoch(out, epoch)?;
    put_shard(out, shard)?;
    put_packets(out, packets)
}

/// A kind, and its fields.
#[tactic(auto, unfolding(crate::specs::Messages::spell_kind, crate::specs::Messages::kind_fits))]
fn put_kind(out: &mut Row<u8>, message: &Message) -> Result<(), NoMemory>
    requires { m.kind_fits message.now ≡ true }
    ensures { OnOk result (out.new ≡ out.old ++ m.spell_kind message.now) }
{
    match message {
        Message::Ask { asker, id, body } => {
            put_tag(out, 1)?;
            put_ask(out, *asker, *id, body)
        }
        Message::Txn { packet } => {
            put_tag(out, 2)?;
            put_packet(out, packet)
        }
        Message::Vouch {
            view,
            shard,
            replica,
            stamp,
            id,
            phase,
        } => {
            put_tag(out, 3)?;
            put_vouch(out, *view, *shard, *replica, stamp, *id, *phase)
        }
        Message::Reply {
            view,
            shard,
            replica,
            stamp,
            id,
            phase,
            answer,
        } => {
            put_tag(out, 4)?;
            put_reply(out, *view, *shard, *replica, stamp, *id, *phase, answer)
        }
        Message::Late {
            shard,
            replica,
            id,
            phase,
            answer,
        } => {
            put_tag(out, 5)?;
            put_late(out, *shard, *replica, *id, *phase, answer)
        }
        Message::Find { replica, place } => {
            put_tag(out, 6)?;
            put_find(out, *replica, *place)
        }
        Message::Request { place } => {
            put_tag(out, 7)?;
            put_place(out, *place)
        }
        Message::Has { packet } => {
            put_tag(out, 8)?;
            put_packet(out, packet)
        }
        Message::TempDropped {
            place,
            shard,
            replica,
            view,
        } => {
            put_tag(out, 9)?;
            put_temp_dropped(out, *place, *shard, *replica, *view)
        }
        Message::Found { packet } => {
            put_tag(out, 10)?;
            put_packet(out, packet)
        }
        Message::Dropped { place } => {
            put_tag(out, 11)?;
            put_place(out, *place)
        }
        Message::ViewChange {
            replica,
            view,
            part,
        } => {
            put_tag(out, 12)?;
            put_view_change(out, *replica, *view, part)
        }
        Message::StartView { view, part } => {
            put_tag(out, 13)?;
            put_start_view(out, *view, part)
        }
        Message::SyncAsk { epoch, view } => {
            put_tag(out, 14)?;
            put_sync_ask(out, *epoch, *view)
        }
        Message::Ack {
            replica,
            epoch,
            view,
            length,
        } => {
            put_tag(out, 15)?;
            put_ack(out, *replica, *epoch, *view, *length)
        }
        Message::Settled {
            epoch,
            view,
            number,
            places,
        } => {
            put_tag(out, 16)?;
            put_settled(out, *epoch, *view, *number, places.as_slice())
        }
        Message::NewEpoch {
            shard,
            replica,
            epoch,
        } => {
            put_tag(out, 17)?;
            put_new_epoch(out, *shard, *replica, *epoch)
        }
        Message::EpochAsk { epoch } => {
            put_tag(out, 18)?;
            put_epoch(out, *epoch)
        }
        Message::EpochState {
            replica,
            epoch,
            part,
        } => {
            put_tag(out, 19)?;
            put_epoch_state(out, *replica, *epoch, part)
        }
        Message::StartEpoch {
            epoch,
            shard,
            packets,
        } => {
            put_tag(out, 20)?;
            put_start_epoch(out, *epoch, *shard, packets.as_slice())
        }
    }
}

#[tactic(auto, unfolding(crate::specs::Messages::message))]
pub(crate) fn put_message(out: &mut Row<u8>, message: &Message) -> Result<(), NoMemory>
    requires { m.message.fits message.now ≡ true }
    ensures { OnOk result (out.new ≡ out.old ++ m.message.spell message.now) }
{
    put_tag(out, 2)?;
    put_kind(out, message)
}
