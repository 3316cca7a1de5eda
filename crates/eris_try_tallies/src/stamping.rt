ghost use Rattle.std.specs.Prelude.{◌≡◌, false, nat_lt, length};
ghost use Rattle.std.specs.List.{list_all};

use crate::packets::place;
use crate::steps::{Stepping, Words, say};
use anyhow::{Context, bail};
use eris_base::{ClientId, Config, Epoch, Node, Row, ShardId, TxnId};
use eris_msg::{Message, Outgoing};
use eris_sequencer::{Sequencer, Sequencers};
use eris_txn::{Body, Key, Name, Packet, participants};
use std::alloc::Global;

/// The first transaction of client 0.
const ID: TxnId = TxnId {
    client: ClientId(0),
    number: 1,
};

impl Stepping for Sequencers {
    fn take(
        &mut self,
        alloc: Global,
        told: &mut String,
        name: &str,
        words: &mut Words<'_>,
    ) -> anyhow::Result<()> {
        if self.is_spent() {
            bail!("no memory");
        }
        match name {
            "replace" => replace(self),
            "newest" => newest(alloc, told, self),
            "stamped" => stamped(alloc, told, self, Epoch(words.number()?)),
            _ => hand(alloc, told, self, name, words),
        }
    }
}

fn replace(sequencers: &mut Sequencers) -> anyhow::Result<()>
    requires { sequencers.old.spent ≡ false }
{
    if sequencers.newest().0 == u32::MAX {
        bail!("no further epoch");
    }
    sequencers.replace()?;
    Ok(())
}

fn newest(alloc: Global, told: &mut String, sequencers: &Sequencers) -> anyhow::Result<()>
    requires { sequencers.now.spent ≡ false }
{
    let newest = sequencers.newest().0;
    let spent = sequencers.is_spent();
    let one = format!(in alloc; "epoch {newest}, spent: {spent}")?;
    say(told, one.as_str())
}

fn stamped(
    alloc: Global,
    told: &mut String,
    sequencers: &Sequencers,
    epoch: Epoch,
) -> anyhow::Result<()> {
    let count = sequencers.stamped(epoch).len();
    let one = format!(in alloc; "{count} stamped")?;
    say(told, one.as_str())
}

/// Hands the message of the step to the sequencer of its epoch.
fn hand(
    alloc: Global,
    told: &mut String,
    sequencers: &mut Sequencers,
    name: &str,
    words: &mut Words<'_>,
) -> anyhow::Result<()>
    requires { sequencers.old.spent ≡ false }
{
    let epoch = Epoch(words.number()?);
    let sends = sequencers.ask(epoch, message(alloc, name, epoch, words)?)?;
    if name == "stamp" {
        return tell_last(alloc, told, sequencers.stamped(epoch));
    }
    tell_sends(alloc, told, sends.as_slice())
}

/// An ask of client 1 for a transaction of client 0, or a message that is no ask.
fn message(
    alloc: Global,
    name: &str,
    epoch: Epoch,
    words: &mut Words<'_>,
) -> anyhow::Result<Message> {
    match name {
        "ask" | "stamp" => Ok(Message::Ask {
            asker: ClientId(1),
            id: ID,
            body: body(alloc, words)?,
        }),
        "request" => Ok(Message::Request {
            place: place(epoch, words)?,
        }),
        _ => bail!("a step of sequencers"),
    }
}

/// An abort on a key of each of these shards.
fn body(alloc: Global, words: &Words<'_>) -> anyhow::Result<Body> {
    let name = Name::new(b"a").context("a name")?;
    let mut keys = Row::new(alloc);
    for shard in words.rest.split_whitespace() {
        let shard = ShardId(shard.parse::<u8>()?);
        keys.push(Key { shard, name })?;
    }
    Ok(Body::Abort(keys))
}

/// Tells the places of the last packet.
fn tell_last(alloc: Global, told: &mut String, packets: &[Packet]) -> anyhow::Result<()> {
    let packet = packets.last().context("a packet")?;
    let mut places = String::new(alloc);
    for (shard, number) in packet.stamp.places() {
        let one = format!(in alloc; "{}.{number}", shard.0)?;
        say(&mut places, one.as_str())?;
    }
    let one = format!(in alloc; "[{places}]")?;
    say(told, one.as_str())
}

/// Tells how many sends there are, and to whom the first and the last go.
fn tell_sends(alloc: Global, told: &mut String, sends: &[Outgoing]) -> anyhow::Result<()> {
    let count = sends.len();
    let first = name_of(alloc, sends.first().map(|send| send.to))?;
    let last = name_of(alloc, sends.last().map(|send| send.to))?;
    let one = format!(in alloc; "{count} sent: {first} .. {last}")?;
    say(told, one.as_str())
}

fn name_of(alloc: Global, node: Option<Node>) -> anyhow::Result<String> {
    match node {
        Some(Node::Replica(shard, replica)) => Ok(format!(in alloc;
            "replica {} of shard {}",
            replica.0, shard.0
        )?),
        Some(_) => Ok(format!(in alloc; "another node")?),
        None => Ok(format!(in alloc; "nobody")?),
    }
}

/// The sequencer of one epoch, for three shards.
#[derive(Drop)]
pub(crate) struct Counting {
    sequencer: Sequencer,
    ghost three: { length sequencer.counters ≡ 3 },
}

impl Counting {
    /// That of `EPOCH F`.
    #[tactic(auto, unfolding(eris_sequencer::specs::Stamps::new_sequencer))]
    pub(crate) fn new(words: &mut Words<'_>) -> anyhow::Result<Counting> {
        let epoch = Epoch(words.number()?);
        let config = Config::new(3, words.next()?, 2)?;
        Ok(Counting {
            sequencer: Sequencer::new(epoch, config),
        })
    }
}

impl Stepping for Counting {
    fn take(
        &mut self,
        alloc: Global,
        told: &mut String,
        name: &str,
        words: &mut Words<'_>,
    ) -> anyhow::Result<()> {
        if name != "stamp" {
            bail!("a step of a sequencer");
        }
        stamp_alone(alloc, &mut self.sequencer, words)?;
        counters(alloc, told, &self.sequencer)
    }
}

/// Stamps a body on these shards, where they are below 3.
fn stamp_alone(alloc: Global, sequencer: &mut Sequencer, words: &Words<'_>) -> anyhow::Result<()>
    requires { length sequencer.old.counters ≡ 3 }
    ensures { length sequencer.new.counters ≡ 3 }
{
    let body = body(alloc, words)?;
    let named = participants(alloc, &body)?;
    if named.is_empty() || !are_below_3(named.as_slice()) {
        bail!("shards that aren't there");
    }
    let _ = sequencer.stamp(alloc, ID, ClientId(1), body)?;
    Ok(())
}

fn are_below_3(shards: &[ShardId]) -> bool
    ensures { result ≡ list_all (λ shard. nat_lt shard.0 3) shards.now }
{
    shards.iter().all(|shard| shard.0 < 3)
}

/// Tells the counters of shards 0 to 3.
fn counters(alloc: Global, told: &mut String, sequencer: &Sequencer) -> anyhow::Result<()> {
    let first = sequencer.counter(ShardId(0));
    let second = sequencer.counter(ShardId(1));
    let third = sequencer.counter(ShardId(2));
    let fourth = sequencer.counter(ShardId(3));
    let one = format!(in alloc; "{first} {second} {third} {fourth}")?;
    say(told, one.as_str())
}
