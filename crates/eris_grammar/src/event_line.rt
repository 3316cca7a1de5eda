ghost use Rattle.std.specs.Prelude.{◌≡◌};
ghost use Rattle.eris_event.specs.declared.event.Event.TheVariants as event;
ghost use Rattle.eris_words.specs.Forms.{Gives, ended, whole};
ghost use Rattle.eris_grammar.specs.Fields as field;
ghost use Rattle.eris_grammar.specs.LineForms as form;

use crate::fields::{client_of, count_of, replica_of, txn_of};
use crate::fixed_words::{LineWord, NodeWord, line_word_of, node_word_of};
use crate::hex::hex_of;
use crate::line::Line;
use crate::op_line::ops_of;
use crate::plan_line::plan_of;
use eris_base::{Epoch, Node, ReplicaId, ShardId};
use eris_event::Event;
use eris_words::{LineFault, LineWords};
use std::alloc::Global;

#[tactic(auto, unfolding(crate::specs::LineForms::submit_of))]
fn submit_of(alloc: Global, version: u8, words: &mut LineWords) -> Result<Event, LineFault>
    ensures { Gives (λ event. event) result (form.submit_of version words.old) }
{
    let client = client_of(words)?;
    let ops = ops_of(alloc, version, words)?;
    Ok(Event::Submit { client, ops })
}

#[tactic(auto, unfolding(crate::specs::LineForms::general_of))]
fn general_of(alloc: Global, version: u8, words: &mut LineWords) -> Result<Event, LineFault>
    ensures { Gives (λ event. event) result (form.general_of version words.old) }
{
    let client = client_of(words)?;
    let plan = plan_of(alloc, version, words)?;
    Ok(Event::General { client, plan })
}

#[tactic(auto, unfolding(crate::specs::LineForms::retry_of))]
fn retry_of(version: u8, words: &mut LineWords) -> Result<Event, LineFault>
    ensures { Gives (λ event. event) result (form.retry_of version words.old) }
{
    let id = txn_of(version, words)?;
    words.end()?;
    Ok(Event::Retry {
        client: id.client,
        number: id.number,
    })
}

#[tactic(auto, unfolding(crate::specs::LineForms::abort_of))]
fn abort_of(version: u8, words: &mut LineWords) -> Result<Event, LineFault>
    ensures { Gives (λ event. event) result (form.abort_of version words.old) }
{
    let asker = client_of(words)?;
    let id = txn_of(version, words)?;
    words.end()?;
    Ok(Event::Abort { asker, id })
}

#[tactic(auto, unfolding(crate::specs::LineForms::epoch))]
fn epoch_of(words: &mut LineWords) -> Result<Option<Epoch>, LineFault>
    ensures { Gives (λ epoch. epoch) result (form.epoch_of words.old) }
{
    if words.is_at_end() {
        return Ok(None);
    }
    let epoch = Epoch(count_of(words)?);
    words.end()?;
    Ok(Some(epoch))
}

#[tactic(auto, unfolding(crate::specs::LineForms::deliver_of))]
fn deliver_of(words: &mut LineWords) -> Result<Event, LineFault>
    ensures { Gives (λ event. event) result (form.deliver_of words.old) }
{
    let packet = count_of(words)?;
    let epoch = epoch_of(words)?;
    Ok(Event::Deliver { packet, epoch })
}

// How often, to the end of the line.
fn times_of(words: &mut LineWords) -> Result<u32, LineFault>
    ensures { Gives (λ times. times) result (whole field.count words.old) }
{
    let times = count_of(words)?;
    words.end()?;
    Ok(times)
}

// A replica, to the end of the line.
fn at_replica(version: u8, words: &mut LineWords) -> Result<(ShardId, ReplicaId), LineFault>
    ensures { Gives (λ r. r) result (whole (field.replica version) words.old) }
{
    let replica = replica_of(version, words)?;
    words.end()?;
    Ok(replica)
}

#[tactic(auto, unfolding(crate::specs::LineForms::node_behind))]
fn node_behind(version: u8, word: NodeWord, words: &mut LineWords) -> Result<Node, LineFault>
    ensures { Gives (λ node. (node, words.new)) result (form.node_behind version word words.old) }
{
    match word {
        NodeWord::Sequencer => Ok(Node::Sequencer),
        NodeWord::Coordinator => Ok(Node::Coordinator),
        NodeWord::Replica => {
            let (shard, replica) = replica_of(version, words)?;
            Ok(Node::Replica(shard, replica))
        }
        NodeWord::Client => Ok(Node::Client(client_of(words)?)),
    }
}

#[tactic(auto, unfolding(crate::specs::LineForms::node_form))]
fn node_of(version: u8, words: &mut LineWords) -> Result<Node, LineFault>
    ensures { Gives (λ node. (node, words.new)) result ((form.node_form version).read words.old) }
{
    let word = node_word_of(words)?;
    node_behind(version, word, words)
}

#[tactic(auto, unfolding(crate::specs::LineForms::noise_of))]
fn noise_of(alloc: Global, version: u8, words: &mut LineWords) -> Result<Event, LineFault>
    ensures { Gives (λ event. event) result (form.noise_of version words.old) }
{
    let node = node_of(version, words)?;
    let bytes = hex_of(alloc, words)?;
    words.end()?;
    Ok(Event::Noise { node, bytes })
}

#[tactic(auto, unfolding(crate::specs::LineForms::line_behind))]
fn line_behind(
    alloc: Global,
    version: u8,
    word: LineWord,
    words: &mut LineWords,
) -> Result<Line, LineFault>
    ensures { Gives (λ line. line) result (form.line_behind version word words.old) }
{
    match word {
        LineWord::Submit => Ok(Line::One(submit_of(alloc, version, words)?)),
        LineWord::General => Ok(Line::One(general_of(alloc, version, words)?)),
        LineWord::Retry => Ok(Line::One(retry_of(version, words)?)),
        LineWord::Abort => Ok(Line::One(abort_of(version, words)?)),
        LineWord::Deliver => Ok(Line::One(deliver_of(words)?)),
        LineWord::Flow => Ok(Line::Flow(times_of(words)?)),
        LineWord::Lose => Ok(Line::Lose(times_of(words)?)),
        LineWord::Probe => {
            let (shard, replica) = at_replica(version, words)?;
            Ok(Line::One(Event::Probe { shard, replica }))
        }
        LineWord::Suspect => {
            let (shard, replica) = at_replica(version, words)?;
            Ok(Line::One(Event::Suspect { shard, replica }))
        }
        LineWord::Sync => {
            let (shard, replica) = at_replica(version, words)?;
            Ok(Line::One(Event::Sync { shard, replica }))
        }
        LineWord::Crash => {
            let (shard, replica) = at_replica(version, words)?;
            Ok(Line::One(Event::Crash { shard, replica }))
        }
        LineWord::Nudge => {
            words.end()?;
            Ok(Line::One(Event::Nudge))
        }
        LineWord::Replace => {
            words.end()?;
            Ok(Line::One(Event::Replace))
        }
        LineWord::Noise => Ok(Line::One(noise_of(alloc, version, words)?)),
    }
}

// What a line says that isn't skipped.
#[tactic(auto, unfolding(crate::specs::LineForms::said_by))]
pub(crate) fn said_by(alloc: Global, version: u8, words: &mut LineWords) -> Result<Line, LineFault>
    ensures { Gives (λ line. line) result (form.said_by version words.old) }
{
    let word = line_word_of(words)?;
    line_behind(alloc, version, word, words)
}
