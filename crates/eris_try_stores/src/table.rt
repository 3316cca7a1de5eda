use crate::answers::{answer, answers};
use crate::packets::{id, key, packet};
use anyhow::{Context, bail};
use eris_base::{NoMemory, Phase, Row, ShardId};
use eris_store::LockStore;
use eris_txn::Packet;
use std::alloc::Global;
use std::mem;

/// The store that takes packets, another one beside it, and the packets since the last empty one.
#[derive(Drop)]
pub(crate) struct Table {
    alloc: Global,
    store: LockStore,
    other: LockStore,
    packets: Row<Packet>,
}

impl Table {
    pub(crate) fn new(alloc: Global) -> Table {
        Table {
            alloc,
            store: LockStore::new(alloc, ShardId(0)),
            other: LockStore::new(alloc, ShardId(0)),
            packets: Row::new(alloc),
        }
    }

    /// What comes of the line.
    pub(crate) fn tell(&mut self, line: &str) -> anyhow::Result<String> {
        match line.split_once(' ') {
            Some(("packet", said)) => self.take(said),
            Some(("value", name)) => value(self.alloc, &self.store, name),
            Some(("kept", said)) => kept(self.alloc, &self.store, said),
            None => self.tell_word(line),
            _ => Ok(format!(in self.alloc; "{line}")?),
        }
    }

    fn tell_word(&mut self, word: &str) -> anyhow::Result<String> {
        match word {
            "new" => self.clear(),
            "copy" => self.copy()?,
            "other" => mem::swap(&mut self.store, &mut self.other),
            "together" => return together(self.alloc, self.packets.as_slice()),
            "entries" => return entries(self.alloc, &self.store),
            "spent" => return Ok(format!(in self.alloc; "{}", self.store.is_spent())?),
            _ => (),
        }
        Ok(format!(in self.alloc; "{word}")?)
    }

    fn clear(&mut self) {
        *self = Table::new(self.alloc);
    }

    fn copy(&mut self) -> Result<(), NoMemory> {
        self.other = copied(&self.store)?;
        Ok(())
    }

    /// Lets the store take the packet of the text, and tells its answers.
    fn take(&mut self, text: &str) -> anyhow::Result<String> {
        let packet = packet(self.alloc, text)?;
        let told = step(self.alloc, &mut self.store, &packet)?;
        self.packets.push(packet)?;
        Ok(told)
    }
}

fn step(alloc: Global, store: &mut LockStore, packet: &Packet) -> anyhow::Result<String> {
    if store.is_spent() {
        bail!("the store is spent");
    }
    let dones = store.step(packet)?;
    answers(alloc, dones.as_slice())
}

fn together(alloc: Global, packets: &[Packet]) -> anyhow::Result<String> {
    let mut store = LockStore::new(alloc, ShardId(0));
    let dones = store.step_all(packets)?;
    answers(alloc, dones.as_slice())
}

fn copied(store: &LockStore) -> Result<LockStore, NoMemory> {
    if store.is_spent() {
        return Err(NoMemory);
    }
    store.copy()
}

fn value(alloc: Global, store: &LockStore, name: &str) -> anyhow::Result<String> {
    if store.is_spent() {
        bail!("the store is spent");
    }
    let value = store.value_of(&key(name)?);
    Ok(format!(in alloc; "{value:?}")?)
}

/// What the store keeps for the transaction `NUMBER PHASE`.
fn kept(alloc: Global, store: &LockStore, text: &str) -> anyhow::Result<String> {
    if store.is_spent() {
        bail!("the store is spent");
    }
    let (number, name) = text.split_once(' ').context("no phase")?;
    match store.recorded(id(number)?, phase(name)?)? {
        Some(said) => Ok(format!(in alloc; "kept:{}", answer(alloc, &said)?)?),
        None => Ok(format!(in alloc; "nothing kept")?),
    }
}

/// The keys that have a value, with it.
fn entries(alloc: Global, store: &LockStore) -> anyhow::Result<String> {
    if store.is_spent() {
        bail!("the store is spent");
    }
    let mut told = format!(in alloc; "entries:")?;
    for write in store.entries()?.as_slice() {
        let name = str::from_utf8(write.key.name.bytes()).context("no text")?;
        let one = format!(in alloc; " {}/{name} {}", write.key.shard.0, write.value)?;
        told.push_str(one.as_str())?;
    }
    Ok(told)
}

fn phase(name: &str) -> anyhow::Result<Phase> {
    match name {
        "Whole" => Ok(Phase::Whole),
        "Prelim" => Ok(Phase::Prelim),
        "Conclude" => Ok(Phase::Conclude),
        _ => bail!("no such phase: {name}"),
    }
}
