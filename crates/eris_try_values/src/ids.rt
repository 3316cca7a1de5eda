use anyhow::bail;
use eris_base::{
    Config, Epoch, NoMemory, Place, ReplicaId, Row, ShardId, Stamp, View, is_quorum, learner,
};
use std::alloc::Global;

pub(crate) fn config(alloc: Global, words: &str) -> anyhow::Result<String> {
    let numbers = numbers(alloc, words)?;
    let [shards, f, clients] = numbers.as_slice() else {
        bail!("not three sizes");
    };
    match Config::new(*shards, *f, *clients) {
        Ok(config) => sizes(alloc, &config),
        Err(fault) => Ok(format!(in alloc; "{fault:?}")?),
    }
}

fn sizes(alloc: Global, config: &Config) -> anyhow::Result<String> {
    let (shards, f, clients) = (config.shards(), config.f(), config.clients());
    Ok(format!(in alloc; "{shards} {f} {clients}")?)
}

pub(crate) fn learned(alloc: Global, words: &str) -> anyhow::Result<String> {
    let numbers = numbers(alloc, words)?;
    match numbers.as_slice() {
        [view, f] if *f <= 3 => {
            let learner = learner(View(u32::from(*view)), *f);
            Ok(format!(in alloc; "{}", learner.0)?)
        }
        _ => bail!("not a view and at most 3 faults"),
    }
}

pub(crate) fn quorum(alloc: Global, words: &str) -> anyhow::Result<String> {
    let numbers = numbers(alloc, words)?;
    let [f, names @ ..] = numbers.as_slice() else {
        bail!("no number of faults");
    };
    let replicas = replicas(alloc, names)?;
    Ok(format!(in alloc; "{}", is_quorum(replicas.as_slice(), *f))?)
}

fn replicas(alloc: Global, names: &[u8]) -> Result<Row<ReplicaId>, NoMemory> {
    let mut replicas = Row::new(alloc);
    for name in names {
        replicas.push(ReplicaId(*name))?;
    }
    Ok(replicas)
}

/// The stamp of epoch 2 with a place of shard 1 and one of shard 4.
pub(crate) fn make_stamp(alloc: Global) -> Result<Stamp, NoMemory> {
    let mut places = Row::new(alloc);
    places.push((ShardId(4), 9))?;
    places.insert(0, (ShardId(1), 3))?;
    Ok(Stamp {
        epoch: Epoch(2),
        places: Row::from_vec(places.into_vec()),
    })
}

pub(crate) fn stamp(alloc: Global) -> anyhow::Result<String> {
    let stamp = make_stamp(alloc)?;
    let (len, empty) = (stamp.places.len(), stamp.places.is_empty());
    Ok(format!(in alloc; "{:?}, {len}, {empty}", stamp.places())?)
}

pub(crate) fn placed(alloc: Global, words: &str) -> anyhow::Result<String> {
    let numbers = numbers(alloc, words)?;
    let [epoch, shard, number] = numbers.as_slice() else {
        bail!("no place");
    };
    let place = Place {
        epoch: Epoch(u32::from(*epoch)),
        shard: ShardId(*shard),
        number: u32::from(*number),
    };
    let stamp = make_stamp(alloc)?;
    let number = stamp.number_of(place.shard);
    Ok(format!(in alloc; "{number:?} {}", stamp.has(place))?)
}

fn numbers(alloc: Global, words: &str) -> anyhow::Result<Row<u8>> {
    let mut numbers = Row::new(alloc);
    for word in words.split(' ') {
        numbers.push(word.parse::<u8>()?)?;
    }
    Ok(numbers)
}
