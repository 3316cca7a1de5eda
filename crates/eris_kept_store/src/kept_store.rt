ghost use Rattle.std.specs.Prelude.{◌≡◌, unwrap_or, List, Some, None, IfOk, if◌then◌else◌};
ghost use Rattle.eris_base.specs.declared.ids.ShardId.{ShardId};
ghost use Rattle.eris_base.specs.Places.{number_in};
ghost use Rattle.eris_txn.specs.declared.packet.Packet.{Packet};
ghost use Rattle.eris_log.specs.PartValues.{PartValue};
ghost use Rattle.eris_log.specs.Parts.{hold};
ghost use Rattle.eris_kept_store.specs.KeptStores.{IsAfter, IsBegun, AreSameBelow, IfKept, is_kept_below, kept_below};

use eris_base::{NoMemory, Row, ShardId};
use eris_store::LockStore;
use eris_txn::Packet;
use std::alloc::Global;
use std::fmt;
use std::marker::Model;

/// A shard's store at a number of an epoch: it has taken the packets of the epochs before, and those of the
/// epoch up to the number whose entries are open.
#[derive(Drop)]
pub struct KeptStore {
    pub(crate) store: LockStore,
    pub(crate) number: u32,
}

impl Model for KeptStore {
    ghost use Rattle.eris_kept_store.specs.KeptStores.{KeptValue};

    ghost Value = { KeptValue };

    ghost view = { λ kept. record { store = kept.store; number = kept.number } };
}

/// Shows the number alone, since a store may be long.
impl fmt::Debug for KeptStore {
    fn fmt<W: fmt::Write>(&self, f: &mut fmt::Formatter<W>) -> fmt::Result {
        let number = self.number;
        write!(f, "KeptStore({number})")
    }
}

/// Whether nothing is kept, or what is kept stands below the number.
pub(crate) fn is_below(kept: &Option<KeptStore>, number: u32) -> bool
    ensures { result ≡ is_kept_below kept.now number }
{
    match kept {
        Some(kept) => kept.number < number,
        None => true,
    }
}

/// What is kept, if it stands below the number. It stays right for every part that has the same open packets
/// below this number.
fn kept_below(kept: Option<KeptStore>, number: u32) -> Option<KeptStore>
    ensures exact { result ≡ kept_below kept number }
    ensures right { (shard : ShardId) (prior : List Packet) (some other : PartValue) → AreSameBelow number some other
        → IfKept shard prior some kept → IfKept shard prior other result }
{
    if is_below(&kept, number) { kept } else { None }
}

/// What is kept, if it stays right where the shard's part also holds the packet: where the packet's number is
/// above that of what is kept. It takes no memory.
pub fn kept_beside(kept: Option<KeptStore>, shard: ShardId, packet: &Packet) -> Option<KeptStore>
    ensures exact { result ≡ kept_below kept (unwrap_or (number_in packet.now.stamp.places shard) 0) }
    ensures right { (prior : List Packet) (part : PartValue) → part.shard ≡ shard
        → IfKept shard prior part kept → IfKept shard prior (hold part packet.now) result }
{
    kept_below(kept, packet.stamp.number_of(shard).unwrap_or(0))
}

/// The store at the number, if it is right there.
pub(crate) fn kept_if(is_right: bool, store: LockStore, number: u32) -> Option<KeptStore>
    ensures { result ≡ (if is_right then Some (record { store = store; number = number }) else None) }
{
    if is_right {
        Some(KeptStore { store, number })
    } else {
        None
    }
}

/// The shard's store after the packets of the epochs before.
#[tactic(auto, unfolding(eris_rules::specs::ReplicaAnswers::store_after))]
fn store_after(alloc: Global, shard: ShardId, prior: &Row<Packet>) -> Result<LockStore, NoMemory>
    ensures { IfOk result (λ store. IsAfter shard prior.now store) }
{
    let mut store = LockStore::new(alloc, shard);
    store.step_all(prior.as_slice())?;
    Ok(store)
}

/// What is kept, or else a store at number 0, which has taken the packets of the epochs before.
pub(crate) fn begun(
    alloc: Global,
    shard: ShardId,
    prior: &Row<Packet>,
    kept: Option<KeptStore>,
) -> Result<KeptStore, NoMemory>
    ensures { IfOk result (λ made. IsBegun shard prior.now kept made) }
{
    match kept {
        Some(kept) => Ok(kept),
        None => {
            let store = store_after(alloc, shard, prior)?;
            Ok(KeptStore { store, number: 0 })
        }
    }
}
