ghost use Rattle.std.specs.Prelude.{◌≡◌};
ghost use Rattle.eris_codec.specs.Answers.{Gives};
ghost use Rattle.eris_codec.specs.Codecs.{arm};
ghost use Rattle.eris_msg.specs.Messages as m;

use crate::message::Message;
use eris_codec::{
    DecodeReason, Input, Stop, bad, read_answer, read_body, read_client, read_epoch, read_id,
    read_number, read_packet, read_packets, read_part, read_phase, read_place, read_places,
    read_replica, read_shard, read_stamp, read_view,
};
use std::alloc::Global;

#[tactic(auto, unfolding(crate::specs::Messages::ask))]
fn read_ask(alloc: Global, input: &mut Input) -> Result<Message, Stop>
    ensures { Gives (λ x. (x, input.new)) result (arm (λ p. Message.Ask p.0 p.1.0 p.1.1) m.ask input.old) }
{
    let asker = read_client(input)?;
    let id = read_id(input)?;
    let body = read_body(alloc, input)?;
    Ok(Message::Ask { asker, id, body })
}

#[tactic(auto, unfolding(crate::specs::Messages::vouch))]
fn read_vouch(alloc: Global, input: &mut Input) -> Result<Message, Stop>
    ensures { Gives (λ x. (x, input.new)) result (arm (λ p. Message.Vouch p.0 p.1.0 p.1.1.0 p.1.1.1.0 p.1.1.1.1.0 p.1.1.1.1.1) m.vouch input.old) }
{
    let view = read_view(input)?;
    let shard = read_shard(input)?;
    let replica = read_replica(input)?;
    let stamp = read_stamp(alloc, input)?;
    let id = read_id(input)?;
    let phase = read_phase(input)?;
    Ok(Message::Vouch {
        view,
        shard,
        replica,
        stamp,
        id,
        phase,
    })
}

#[tactic(auto, unfolding(crate::specs::Messages::reply))]
fn read_reply(alloc: Global, input: &mut Input) -> Result<Message, Stop>
    ensures { Gives (λ x. (x, input.new)) result (arm (λ p. Message.Reply p.0 p.1.0 p.1.1.0 p.1.1.1.0 p.1.1.1.1.0 p.1.1.1.1.1.0 p.1.1.1.1.1.1) m.reply input.old) }
{
    let view = read_view(input)?;
    let shard = read_shard(input)?;
    let replica = read_replica(input)?;
    let stamp = read_stamp(alloc, input)?;
    let id = read_id(input)?;
    let phase = read_phase(input)?;
    let answer = read_answer(alloc, input)?;
    Ok(Message::Reply {
        view,
        shard,
        replica,
        stamp,
        id,
        phase,
        answer,
    })
}

#[tactic(auto, unfolding(crate::specs::Messages::late))]
fn read_late(alloc: Global, input: &mut Input) -> Result<Message, Stop>
    ensures { Gives (λ x. (x, input.new)) result (arm (λ p. Message.Late p.0 p.1.0 p.1.1.0 p.1.1.1.0 p.1.1.1.1) m.late input.old) }
{
    let shard = read_shard(input)?;
    let replica = read_replica(input)?;
    let id = read_id(input)?;
    let phase = read_phase(input)?;
    let answer = read_answer(alloc, input)?;
    Ok(Message::Late {
        shard,
        replica,
        id,
        phase,
        answer,
    })
}

#[tactic(auto, unfolding(crate::specs::Messages::find))]
fn read_find(input: &mut Input) -> Result<Message, Stop>
    ensures { Gives (λ x. (x, input.new)) result (arm (λ p. Message.Find p.0 p.1) m.find input.old) }
{
    let replica = read_replica(input)?;
    let place = read_place(input)?;
    Ok(Message::Find { replica, place })
}

#[tactic(auto, unfolding(crate::specs::Messages::temp_dropped))]
fn read_temp_dropped(input: &mut Input) -> Result<Message, Stop>
    ensures { Gives (λ x. (x, input.new)) result (arm (λ p. Message.TempDropped p.0 p.1.0 p.1.1.0 p.1.1.1) m.temp_dropped input.old) }
{
    let place = read_place(input)?;
    let shard = read_shard(input)?;
    let replica = read_replica(input)?;
    let view = read_view(input)?;
    Ok(Message::TempDropped {
        place,
        shard,
        replica,
        view,
    })
}

#[tactic(auto, unfolding(crate::specs::Messages::view_change))]
fn read_view_change(alloc: Global, input: &mut Input) -> Result<Message, Stop>
    ensures { Gives (λ x. (x, input.new)) result (arm (λ p. Message.ViewChange p.0 p.1.0 p.1.1) m.view_change input.old) }
{
    let replica = read_replica(input)?;
    let view = read_view(input)?;
    let part = read_part(alloc, input)?;
    Ok(Message::ViewChange {
        replica,
        view,
        part,
    })
}

#[tactic(auto, unfolding(crate::specs::Messages::start_view))]
fn read_start_view(alloc: Global, input: &mut Input) -> Result<Message, Stop>
    ensures { Gives (λ x. (x, input.new)) result (arm (λ p. Message.StartView p.0 p.1) m.start_view input.old) }
{
    let view = read_view(input)?;
    let part = read_part(alloc, input)?;
    Ok(Message::StartView { view, part })
}

#[tactic(auto, unfolding(crate::specs::Messages::sync_ask))]
fn read_sync_ask(input: &mut Input) -> Result<Message, Stop>
    ensures { Gives (λ x. (x, input.new)) result (arm (λ p. Message.SyncAsk p.0 p.1) m.sync_ask input.old) }
{
    let epoch = read_epoch(input)?;
    let view = read_view(input)?;
    Ok(Message::SyncAsk { epoch, view })
}

#[tactic(auto, unfolding(crate::specs::Messages::ack))]
fn read_ack(input: &mut Input) -> Result<Message, Stop>
    ensures { Gives (λ x. (x, input.new)) result (arm (λ p. Message.Ack p.0 p.1.0 p.1.1.0 p.1.1.1) m.ack input.old) }
{
    let replica = read_replica(input)?;
    let epoch = read_epoch(input)?;
    let view = read_view(input)?;
    let length = input.word()?;
    Ok(Message::Ack {
        replica,
        epoch,
        view,
        length,
    })
}

#[tactic(auto, unfolding(crate::specs::Messages::settled))]
fn read_settled(alloc: Global, input: &mut Input) -> Result<Message, Stop>
    ensures { Gives (λ x. (x, input.new)) result (arm (λ p. Message.Settled p.0 p.1.0 p.1.1.0 p.1.1.1) m.settled input.old) }
{
    let epoch = read_epoch(input)?;
    let view = read_view(input)?;
    let number = read_number(input)?;
    let places = read_places(alloc, input)?;
    Ok(Message::Settled {
        epoch,
        view,
        number,
        places,
    })
}

#[tactic(auto, unfolding(crate::specs::Messages::new_epoch))]
fn read_new_epoch(input: &mut Input) -> Result<Message, Stop>
    ensures { Gives (λ x. (x, input.new)) result (arm (λ p. Message.NewEpoch p.0 p.1.0 p.1.1) m.new_epoch input.old) }
{
    let shard = read_shard(input)?;
    let replica = read_replica(input)?;
    let epoch = read_epoch(input)?;
    Ok(Message::NewEpoch {
        shard,
        replica,
        epoch,
    })
}

#[tactic(auto, unfolding(crate::specs::Messages::epoch_state))]
fn read_epoch_state(alloc: Global, input: &mut Input) -> Result<Message, Stop>
    ensures { Gives (λ x. (x, input.new)) result (arm (λ p. Message.EpochState p.0 p.1.0 p.1.1) m.epoch_state input.old) }
{
    let replica = read_replica(input)?;
    let epoch = read_epoch(input)?;
    let part = read_part(alloc, input)?;
    Ok(Message::EpochState {
        replica,
        epoch,
        part,
    })
}

#[tactic(auto, unfolding(crate::specs::Messages::start_epoch))]
fn read_start_epoch(alloc: Global, input: &mut Input) -> Result<Message, Stop>
    ensures { Gives (λ x. (x, input.new)) result (arm (λ p. Message.StartEpoch p.0 p.1.0 p.1.1) m.start_epoch input.old) }
{
    let epoch = read_epoch(input)?;
    let shard = read_shard(input)?;
    let packets = read_packets(alloc, input)?;
    Ok(Message::StartEpoch {
        epoch,
        shard,
        packets,
    })
}

#[tactic(auto, unfolding(crate::specs::Messages::kind_behind))]
fn kind_behind(alloc: Global, kind: u8, input: &mut Input) -> Result<Message, Stop>
    ensures { Gives (λ x. (x, input.new)) result (m.kind_behind kind input.old) }
{
    match kind {
        1 => read_ask(alloc, input),
        2 => Ok(Message::Txn {
            packet: read_packet(alloc, input)?,
        }),
        3 => read_vouch(alloc, input),
        4 => read_reply(alloc, input),
        5 => read_late(alloc, input),
        6 => read_find(input),
        7 => Ok(Message::Request {
            place: read_place(input)?,
        }),
        8 => Ok(Message::Has {
            packet: read_packet(alloc, input)?,
        }),
        9 => read_temp_dropped(input),
        10 => Ok(Message::Found {
            packet: read_packet(alloc, input)?,
        }),
        11 => Ok(Message::Dropped {
            place: read_place(input)?,
        }),
        12 => read_view_change(alloc, input),
        13 => read_start_view(alloc, input),
        14 => read_sync_ask(input),
        15 => read_ack(input),
        16 => read_settled(alloc, input),
        17 => read_new_epoch(input),
        18 => Ok(Message::EpochAsk {
            epoch: read_epoch(input)?,
        }),
        19 => read_epoch_state(alloc, input),
        20 => read_start_epoch(alloc, input),
        _ => bad(0, DecodeReason::Kind),
    }
}

fn read_version(input: &mut Input) -> Result<u8, Stop>
    ensures { Gives (λ x. (x, input.new)) result (m.version.read input.old) }
{
    let left = input.left();
    let byte = input.byte()?;
    if byte != 2 {
        return bad(left, DecodeReason::Kind);
    }
    Ok(byte)
}

fn read_kind(input: &mut Input) -> Result<u8, Stop>
    ensures { Gives (λ x. (x, input.new)) result (m.kind.read input.old) }
{
    let left = input.left();
    let byte = input.byte()?;
    if byte < 1 || byte > 20 {
        return bad(left, DecodeReason::Kind);
    }
    Ok(byte)
}

#[tactic(auto, unfolding(crate::specs::Messages::message))]
pub(crate) fn read_message(alloc: Global, input: &mut Input) -> Result<Message, Stop>
    ensures { Gives (λ x. (x, input.new)) result (m.message.read input.old) }
{
    read_version(input)?;
    let kind = read_kind(input)?;
    kind_behind(alloc, kind, input)
}
