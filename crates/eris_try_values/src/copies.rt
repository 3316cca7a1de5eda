use crate::ids::make_stamp;
use crate::keys::key;
use crate::plans::plan_of;
use anyhow::bail;
use eris_base::{
    ClientId, Dup, Epoch, NoMemory, Node, Phase, Place, ReplicaId, Row, Same, ShardId, Stamp,
    TxnId, View,
};
use eris_txn::{
    Answer, Body, HistoryEvent, Key, Lock, Mode, Op, OpAnswer, Packet, Plan, Txn, Write,
};
use std::alloc::Global;

const ID: TxnId = TxnId {
    client: ClientId(1),
    number: 1,
};

const PLACE: Place = Place {
    epoch: Epoch(1),
    shard: ShardId(2),
    number: 3,
};

pub(crate) fn copied(alloc: Global, name: &str) -> anyhow::Result<String> {
    let same = is_copied(alloc, name)?;
    Ok(format!(in alloc; "{same}")?)
}

fn is_copied(alloc: Global, name: &str) -> anyhow::Result<bool> {
    match name {
        "ids" => Ok(copies(alloc, (ID, (ClientId(1), View(2))))?),
        "nodes" => Ok(copies(
            alloc,
            (Node::Replica(ShardId(1), ReplicaId(2)), Phase::Prelim),
        )?),
        "place" => Ok(copies(alloc, Some(PLACE))?),
        "numbers" => Ok(copies(alloc, ((true, 1u8), (2u32, 3u64)))?),
        "stamp" => Ok(copies(alloc, make_stamp(alloc)?)?),
        "bodies" => Ok(copies(alloc, bodies(alloc, &key("0/a")?)?)?),
        "packet" => Ok(copies(alloc, packet(alloc, 1)?)?),
        "events" => Ok(copies(alloc, events(alloc)?)?),
        _ => bail!("no value to copy: {name}"),
    }
}

fn copies<T: Dup + Same>(alloc: Global, item: T) -> Result<bool, NoMemory> {
    let copy = item.copy(alloc)?;
    Ok(copy.same(&item))
}

pub(crate) fn differing(alloc: Global, name: &str) -> anyhow::Result<String> {
    let same = match name {
        "place" => Some(PLACE).same(&None),
        "packet" => packet(alloc, 1)?.same(&packet(alloc, 2)?),
        "answer" => Answer::Committed.same(&Answer::Aborted),
        _ => bail!("no values that differ: {name}"),
    };
    Ok(format!(in alloc; "{same}")?)
}

fn one<T: Drop>(alloc: Global, item: T) -> Result<Row<T>, NoMemory> {
    let mut items = Row::new(alloc);
    items.push(item)?;
    Ok(items)
}

fn bodies(alloc: Global, key: &Key) -> Result<Row<Body>, NoMemory> {
    let mut bodies = Row::new(alloc);
    let mode = Mode::Shared;
    bodies.push(Body::Independent(one(alloc, Op::Get(*key))?))?;
    bodies.push(Body::Prelim(one(alloc, Lock { key: *key, mode })?))?;
    bodies.push(Body::Abort(one(alloc, *key)?))?;
    Ok(bodies)
}

/// A commit that writes this value.
fn packet(alloc: Global, value: u64) -> anyhow::Result<Packet> {
    let key = key("0/a")?;
    let keys = one(alloc, key)?;
    let writes = one(alloc, Write { key, value })?;
    Ok(Packet {
        stamp: make_stamp(alloc)?,
        id: ID,
        asker: ClientId(0),
        body: Body::Commit(keys, writes),
    })
}

fn events(alloc: Global) -> anyhow::Result<Row<HistoryEvent>> {
    let plan = plan_of(
        alloc,
        "lock 1/b 0/a 1/c ; guard 30 0/a ; minus 0/a 30 ; plus 1/b 30",
    )??;
    Ok(events_of(alloc, plan, Op::Get(key("0/a")?))?)
}

fn events_of(alloc: Global, plan: Plan, op: Op) -> Result<Row<HistoryEvent>, NoMemory> {
    let mut events = Row::new(alloc);
    let mut values = one(alloc, Some(1))?;
    values.push(None)?;
    events.push(HistoryEvent::Submit(ID, Txn::General(plan)))?;
    events.push(HistoryEvent::Submit(ID, Txn::Whole(one(alloc, op)?)))?;
    events.push(HistoryEvent::Read(ID, values))?;
    events.push(HistoryEvent::Answer(ID, Answer::Ops(one(alloc, OpAnswer::Done)?)))?;
    events.push(HistoryEvent::Told(ClientId(1), ID, Answer::Aborted))?;
    Ok(events)
}
