use eris_base::{Epoch, NoMemory};
use eris_client::{Client, RetryFault};
use eris_coord::Coordinator;
use eris_msg::{DecodeFault, decode};
use eris_replica::Replica;
use eris_rules::{CoordInput, ReplicaInput};
use eris_sequencer::Sequencers;
use std::alloc::Global;
use std::fmt::Debug;

/// A node that takes bytes.
pub(crate) trait Receiving: Debug + Drop {
    /// Takes the message of the bytes. How much comes out: the messages that are sent, and at a client what
    /// it tells.
    fn take(&mut self, alloc: Global, bytes: &[u8]) -> Result<usize, NoMemory>;

    /// Takes its own step of this name. How many messages are sent; nothing where no step is named so.
    fn act(&mut self, name: &str) -> Result<Option<usize>, NoMemory>;

    /// What its calls tell of it.
    fn told(&self, alloc: Global) -> anyhow::Result<String>;
}

impl Receiving for Replica {
    fn take(&mut self, _alloc: Global, bytes: &[u8]) -> Result<usize, NoMemory> {
        if self.is_spent() {
            return Err(NoMemory);
        }
        Ok(self.receive(bytes)?.len())
    }

    fn act(&mut self, name: &str) -> Result<Option<usize>, NoMemory> {
        if self.is_spent() {
            return Err(NoMemory);
        }
        match name {
            "probe" => Ok(Some(self.step(ReplicaInput::Probe)?.len())),
            "suspect" => Ok(Some(self.step(ReplicaInput::Suspect)?.len())),
            "sync" => Ok(Some(self.step(ReplicaInput::Sync)?.len())),
            _ => Ok(None),
        }
    }

    fn told(&self, alloc: Global) -> anyhow::Result<String> {
        let told = stands(alloc, self)?;
        let held = self.part().held_list().len();
        let length = self.part().length();
        let log = settled(self)?;
        Ok(format!(in alloc;
            "{told}, {held} held, length {length}, settled {}, a log of {log}",
            self.settled()
        )?)
    }
}

/// Its epochs, its view and its status.
fn stands(alloc: Global, replica: &Replica) -> anyhow::Result<String> {
    let epoch = replica.epoch().0;
    let promised = replica.promised().0;
    let view = replica.view().0;
    let status = replica.status();
    Ok(format!(in alloc; "epoch {epoch}, promised {promised}, view {view}, {status:?}")?)
}

/// How many packets its settled log has.
fn settled(replica: &Replica) -> Result<usize, NoMemory> {
    if replica.is_spent() {
        return Err(NoMemory);
    }
    Ok(replica.settled_log()?.len())
}

impl Receiving for Coordinator {
    fn take(&mut self, _alloc: Global, bytes: &[u8]) -> Result<usize, NoMemory> {
        if self.is_spent() {
            return Err(NoMemory);
        }
        Ok(self.receive(bytes)?.len())
    }

    fn act(&mut self, name: &str) -> Result<Option<usize>, NoMemory> {
        if self.is_spent() {
            return Err(NoMemory);
        }
        match name {
            "nudge" => Ok(Some(self.step(CoordInput::Nudge)?.len())),
            _ => Ok(None),
        }
    }

    fn told(&self, alloc: Global) -> anyhow::Result<String> {
        let current = self.current().0;
        let target = self.target().0;
        let asked = self.asked().len();
        let found = self.found().len();
        let dropped = self.dropped().len();
        let closed = self.closed().len();
        let epochs = format!(in alloc; "current {current}, target {target}")?;
        let lists = format!(in alloc;
            "asked {asked}, found {found}, dropped {dropped}, closed {closed}"
        )?;
        Ok(format!(in alloc; "{epochs}, {lists}")?)
    }
}

impl Receiving for Client {
    fn take(&mut self, _alloc: Global, bytes: &[u8]) -> Result<usize, NoMemory> {
        if self.is_spent() {
            return Err(NoMemory);
        }
        let (sends, event) = self.receive(bytes)?;
        let told: usize = if event.is_some() { 1 } else { 0 };
        Ok(sends.len().saturating_add(told))
    }

    fn act(&mut self, name: &str) -> Result<Option<usize>, NoMemory> {
        if self.is_spent() {
            return Err(NoMemory);
        }
        if name != "retry" {
            return Ok(None);
        }
        match self.retry(1) {
            Ok(sends) => Ok(Some(sends.len())),
            Err(RetryFault::NoSuchTxn) => Ok(None),
            Err(RetryFault::NoMemory) => Err(NoMemory),
        }
    }

    fn told(&self, alloc: Global) -> anyhow::Result<String> {
        let submitted = self.submitted();
        let first = self.has_submitted(1);
        let second = self.has_submitted(2);
        let general = is_general(self)?;
        Ok(format!(in alloc;
            "submitted {submitted}, has 1: {first}, has 2: {second}, 1 has a plan: {general}"
        )?)
    }
}

/// Whether its first transaction is a general one.
fn is_general(client: &Client) -> Result<bool, NoMemory> {
    if client.is_spent() {
        return Err(NoMemory);
    }
    Ok(client.plan(1).is_some())
}

impl Receiving for Sequencers {
    fn take(&mut self, alloc: Global, bytes: &[u8]) -> Result<usize, NoMemory> {
        if self.is_spent() {
            return Err(NoMemory);
        }
        match decode(alloc, bytes) {
            Ok(message) => Ok(self.ask(Epoch(0), message)?.len()),
            Err(DecodeFault::Bad { .. }) => Ok(0),
            Err(DecodeFault::NoMemory) => Err(NoMemory),
        }
    }

    fn act(&mut self, name: &str) -> Result<Option<usize>, NoMemory> {
        if self.is_spent() {
            return Err(NoMemory);
        }
        if name != "replace" || self.newest().0 == u32::MAX {
            return Ok(None);
        }
        self.replace()?;
        Ok(Some(0))
    }

    fn told(&self, alloc: Global) -> anyhow::Result<String> {
        if self.is_spent() {
            return Err(NoMemory.into());
        }
        let newest = self.newest().0;
        let stamped = self.stamped(Epoch(0)).len();
        Ok(format!(in alloc; "newest {newest}, stamped {stamped}")?)
    }
}
