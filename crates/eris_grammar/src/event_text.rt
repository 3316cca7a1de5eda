ghost use Rattle.std.specs.Prelude.{◌≡◌, ◌⊎◌, ◌<◌, ◌∷◌, ◌++◌, Ok, IfOk, IsTrue, OnOk};
ghost use Rattle.std.specs.List.{flat_map, join_with_byte};
ghost use Rattle.eris_grammar.specs.EventText.{epoch_words, event_text, event_words, node_words};
ghost use Rattle.eris_grammar.specs.Fields.{hex_digit, hex_pair, hex_word, pair_words};
ghost use Rattle.eris_event.specs.EventRanges.{fits_event};
ghost use Rattle.eris_grammar.specs.LineForms.{line_of, line_saying};
ghost use Rattle.eris_words.specs.Words.{spaced};

use eris_base::{Epoch, NoMemory, Node, ReplicaId, Row, ShardId};
use eris_event::Event;
use eris_words::{append_decimal, put_number, put_ops, put_plan, put_word};
use std::alloc::Global;

// Two numbers: two words in version 1, one with a dot between them in version 2.
#[tactic(auto, using(eris_words::proofs::LineLemmas::joining))]
fn put_pair(out: &mut Row<u8>, version: u8, first: u64, second: u64) -> Result<(), NoMemory>
    ensures { OnOk result (out.new ≡ out.old ++ spaced (pair_words version first second)) }
{
    put_number(out, first)?;
    out.push(if version == 1 { b' ' } else { b'.' })?;
    append_decimal(out, second)
}

fn put_replica(
    out: &mut Row<u8>,
    version: u8,
    shard: ShardId,
    replica: ReplicaId,
) -> Result<(), NoMemory>
    ensures { OnOk result (out.new ≡ out.old ++ spaced (pair_words version shard.0 replica.0)) }
{
    put_pair(out, version, u64::from(shard.0), u64::from(replica.0))
}

fn put_epoch(out: &mut Row<u8>, epoch: Option<Epoch>) -> Result<(), NoMemory>
    ensures { OnOk result (out.new ≡ out.old ++ spaced (epoch_words epoch)) }
{
    match epoch {
        Some(epoch) => put_number(out, u64::from(epoch.0)),
        None => Ok(()),
    }
}

fn put_node(out: &mut Row<u8>, version: u8, node: Node) -> Result<(), NoMemory>
    ensures { OnOk result (out.new ≡ out.old ++ spaced (node_words version node)) }
{
    match node {
        Node::Sequencer => put_word(out, b"seq"),
        Node::Coordinator => put_word(out, b"coord"),
        Node::Replica(shard, replica) => {
            put_word(out, b"rep")?;
            put_replica(out, version, shard, replica)
        }
        Node::Client(client) => {
            put_word(out, b"cli")?;
            put_number(out, u64::from(client.0))
        }
    }
}

fn hex_digit(value: u8) -> u8
    requires { value < 16 }
    ensures { result ≡ hex_digit value }
{
    if value < 10 {
        b'0' + value
    } else {
        b'a' - 10 + value
    }
}

fn put_byte(out: &mut Row<u8>, byte: u8) -> Result<(), NoMemory>
    ensures { OnOk result (out.new ≡ out.old ++ hex_pair byte) }
{
    out.push(hex_digit(byte / 16))?;
    out.push(hex_digit(byte % 16))
}

fn put_bytes(out: &mut Row<u8>, bytes: &[u8]) -> Result<(), NoMemory>
    ensures { OnOk result (out.new ≡ out.old ++ flat_map hex_pair bytes.now) }
{
    for byte in bytes {
        put_byte(out, *byte)?;
    }
    Ok(())
}

fn put_hex(out: &mut Row<u8>, bytes: &[u8]) -> Result<(), NoMemory>
    ensures { OnOk result (out.new ≡ out.old ++ 32 ∷ hex_word bytes.now) }
{
    out.push(b' ')?;
    match bytes {
        [] => out.push(b'-'),
        _ => put_bytes(out, bytes),
    }
}

#[tactic(auto, using(eris_words::proofs::LineLemmas::joining))]
fn put_event(out: &mut Row<u8>, version: u8, event: &Event) -> Result<(), NoMemory>
    ensures { OnOk result (out.new ≡ out.old ++ join_with_byte 32 (event_words version event.now)) }
{
    match event {
        Event::Submit { client, ops } => {
            out.append(b"submit")?;
            put_number(out, u64::from(client.0))?;
            put_ops(out, ops.as_slice())
        }
        Event::General { client, plan } => {
            out.append(b"general")?;
            put_number(out, u64::from(client.0))?;
            put_plan(out, plan)
        }
        Event::Retry { client, number } => {
            out.append(b"retry")?;
            put_pair(out, version, u64::from(client.0), u64::from(*number))
        }
        Event::Abort { asker, id } => {
            out.append(b"abort")?;
            put_number(out, u64::from(asker.0))?;
            put_pair(out, version, u64::from(id.client.0), u64::from(id.number))
        }
        Event::Deliver { packet, epoch } => {
            out.append(b"deliver")?;
            put_number(out, u64::from(*packet))?;
            put_epoch(out, *epoch)
        }
        Event::Flow => out.append(b"flow 1"),
        Event::Lose => out.append(b"lose 1"),
        Event::Probe { shard, replica } => {
            out.append(b"probe")?;
            put_replica(out, version, *shard, *replica)
        }
        Event::Suspect { shard, replica } => {
            out.append(b"suspect")?;
            put_replica(out, version, *shard, *replica)
        }
        Event::Sync { shard, replica } => {
            out.append(b"sync")?;
            put_replica(out, version, *shard, *replica)
        }
        Event::Crash { shard, replica } => {
            out.append(b"crash")?;
            put_replica(out, version, *shard, *replica)
        }
        Event::Nudge => out.append(b"nudge"),
        Event::Replace => out.append(b"replace"),
        Event::Noise { node, bytes } => {
            out.append(b"noise")?;
            put_node(out, version, *node)?;
            put_hex(out, bytes.as_slice())
        }
    }
}

/// The line of an event in a script of version 1 or 2, its words separated by single spaces, without the
/// LF that ends it. A plan's guards stand before its settings. An event whose fields are in the ranges of
/// the version is what the line says when it is read.
#[tactic(auto, using(crate::proofs::SpellingLaws::event_back))]
pub fn print_event(alloc: Global, version: u8, event: &Event) -> Result<Row<u8>, NoMemory>
    requires { (version ≡ 1) ⊎ (version ≡ 2) }
    ensures exact { IfOk result (λ text. text ≡ event_text version event.now) }
    ensures read_back { IfOk result (λ text. IsTrue (fits_event version event.now)
        → line_of version text ≡ Ok (line_saying event.now)) }
{
    let mut text = Row::new(alloc);
    put_event(&mut text, version, event)?;
    Ok(text)
}
