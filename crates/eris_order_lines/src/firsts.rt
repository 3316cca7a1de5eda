ghost use Rattle.std.specs.Prelude.{◌≡◌, [], Option, IfOk, OnOk};
ghost use Rattle.std.specs.Option.{unwrap_or};
ghost use Rattle.eris_base.specs.declared.ids.TxnId.{TxnId};
ghost use Rattle.eris_base.specs.TxnIds.{same_id};
ghost use Rattle.eris_txn.specs.declared.answer.Answer.{Answer};
ghost use Rattle.eris_locks.specs.ShardRun.{outcome_by};
ghost use Rattle.eris_order.specs.Orders.{outcome_at, outcome_from};
ghost use Rattle.eris_order_lines.specs.Noted.{noted_in, noted_or_pending, with_first};

use eris_audit::Outcome;
use eris_base::{NoMemory, TxnId};
use eris_txn::{Body, Packet};
use std::alloc::Global;
use std::collections::BTreeMap;
use std::marker::Model;

/// What the first conclusory packet of each id says, of those that have one.
#[derive(Drop)]
pub(crate) struct Firsts {
    outcomes: BTreeMap<TxnId, Outcome>,
}

impl Model for Firsts {
    ghost use Rattle.std.specs.Prelude.{List};
    ghost use Rattle.eris_base.specs.declared.ids.TxnId.{TxnId};
    ghost use Rattle.eris_audit.specs.declared.outcome.Outcome.{Outcome};

    ghost Value = { List (TxnId × Outcome) };

    ghost view = { λ firsts. firsts.outcomes.entries };
}

impl Firsts {
    fn new(alloc: Global) -> Firsts
        ensures { result ≡ [] }
    {
        Firsts {
            outcomes: BTreeMap::new(alloc),
        }
    }

    /// Notes the outcome of an id, unless one is noted already.
    fn put(&mut self, id: TxnId, outcome: Outcome) -> Result<(), NoMemory>
        ensures { OnOk result ((other : TxnId) → noted_in self.new other ≡ with_first (noted_in self.old) id outcome other) }
    {
        if !self.outcomes.contains_key(&id) {
            self.outcomes.insert(id, outcome)?;
        }
        Ok(())
    }

    /// Notes what a packet says, if it is the first conclusory one of its id.
    fn note(&mut self, packet: &Packet) -> Result<(), NoMemory>
        ensures { OnOk result ((id : TxnId) (later : Option Answer)
            → unwrap_or (noted_in self.new id) (outcome_from later)
            ≡ unwrap_or (noted_in self.old id) (outcome_from (outcome_by packet.now.body (same_id id packet.now.id) later))) }
    {
        match &packet.body {
            Body::Commit(_, _) => self.put(packet.id, Outcome::Committed),
            Body::Abort(_) => self.put(packet.id, Outcome::Aborted),
            Body::Independent(_) | Body::Prelim(_) => Ok(()),
        }
    }

    /// What the first conclusory packet of the id says; pending where there is none. It takes no memory.
    pub fn outcome(&self, id: TxnId) -> Outcome
        ensures { result ≡ noted_or_pending self.now id }
    {
        match self.outcomes.get(&id) {
            Some(outcome) => *outcome,
            None => Outcome::Pending,
        }
    }
}

/// What the first conclusory packet of each id says, among these packets.
///
/// # Errors
///
/// [`NoMemory`] where an allocation was refused.
pub(crate) fn first_outcomes(alloc: Global, packets: &[Packet]) -> Result<Firsts, NoMemory>
    ensures { IfOk result (λ firsts. (id : TxnId) → noted_or_pending firsts id ≡ outcome_from (outcome_at id packets.now)) }
{
    let mut firsts = Firsts::new(alloc);
    for packet in packets {
        firsts.note(packet)?;
    }
    Ok(firsts)
}
