ghost use Rattle.std.specs.Prelude.{◌≡◌, None, List, [], ◌++◌, true, false, is_err, IfOk, OnOk};
ghost use Rattle.eris_base.specs.declared.ids.Phase.TheVariants.{Conclude};
ghost use Rattle.eris_base.specs.Each.{Each};
ghost use Rattle.eris_locks.specs.declared.shard_packet.ShardPacket.{ShardPacket};
ghost use Rattle.eris_locks.specs.Law.{plain_end, IsRightDone};
ghost use Rattle.eris_locks.specs.LockTable.{run_dones, run_state, step};
ghost use Rattle.eris_locks.specs.Shards.{cut, on_shard};
ghost use Rattle.eris_locks.specs.States.{empty};
ghost use Rattle.eris_locks.specs.WellFormed.{WellFormed};
ghost use Rattle.eris_plain_store.specs.Listings.{IsListing};

use crate::run::{run_named, step_cut};
use crate::table::Table;
use eris_base::{NoMemory, Phase, Row, ShardId, TxnId};
use eris_locks::Done;
use eris_plain_store::Locks;
use eris_txn::{Answer, Key, Packet, Write};
use std::alloc::Global;
use std::marker::Model;

/// The store of one shard. Contracts see, by `state_of`, the state of the lock table that it stands for. Its
/// [`Locks::step`] and [`Locks::value_of`] are [`LockStore::step`] and [`LockStore::value_of`].
#[derive(Drop)]
pub struct LockStore {
    alloc: Global,
    shard: ShardId,
    table: Table,
    spent: bool,
}

impl Model for LockStore {
    ghost use Rattle.eris_store.specs.Stores.{StoreValue};

    ghost Value = { StoreValue };

    ghost view = { λ store. record { shard = store.shard; kept = store.table; spent = store.spent } };
}

impl LockStore {
    ghost use Rattle.eris_store.specs.Stores.{state_of, stepped};

    /// The empty store of a shard. It takes no memory.
    pub fn new(alloc: Global, shard: ShardId) -> LockStore
        ensures state { state_of result ≡ empty }
        ensures shard { result.shard ≡ shard }
        ensures spent { result.spent ≡ false }
    {
        LockStore {
            alloc,
            shard,
            table: Table::new(alloc),
            spent: false,
        }
    }

    /// Takes one packet, of which it sees what is on keys of its shard, and gives answers: the step of the
    /// lock table. It needs a store that isn't spent. The packets of a shard come in the order of their
    /// places there; the table says what a step does with any.
    ///
    /// # Errors
    ///
    /// [`NoMemory`] where an allocation was refused; the store is then spent.
    pub fn step(&mut self, packet: &Packet) -> Result<Row<Done>, NoMemory>
        requires { self.old.spent ≡ false }
        ensures exact { IfOk result (λ dones. stepped self.new dones ≡ step (state_of self.old) (cut self.old.shard packet.now)) }
        ensures shard { self.new.shard ≡ self.old.shard }
        ensures spent { self.new.spent ≡ is_err result }
    {
        let done = step_cut(self.alloc, self.shard, &mut self.table, packet);
        self.spent = done.is_err();
        done
    }

    /// Takes those of the packets that name the shard, one after the other, and joins their answers in
    /// order. It needs a store that isn't spent.
    ///
    /// Over a well-formed list each answer is the one of the plain run, in which there is no lock and no
    /// waiting, as `IsRightDone` says; also where the store took packets before, and whatever packets come
    /// later. Where no preliminary holds at the end, nothing waits, and the values are the plain run's.
    ///
    /// # Errors
    ///
    /// [`NoMemory`] where an allocation was refused; the store is then spent.
    pub fn step_all(&mut self, packets: &[Packet]) -> Result<Row<Done>, NoMemory>
        requires { self.old.spent ≡ false }
        ensures dones { IfOk result (λ dones. dones ≡ run_dones (state_of self.old) (on_shard self.old.shard packets.now)) }
        ensures state { OnOk result (state_of self.new ≡ run_state (state_of self.old) (on_shard self.old.shard packets.now)) }
        ensures shard { self.new.shard ≡ self.old.shard }
        ensures spent { self.new.spent ≡ is_err result }
        ensures answers { IfOk result (λ dones. (before : List ShardPacket) → state_of self.old ≡ run_state empty before
            → let came = before ++ on_shard self.old.shard packets.now in
            WellFormed came → Each (IsRightDone came) dones) }
        ensures beginning { IfOk result (λ dones. (before rest : List ShardPacket) → state_of self.old ≡ run_state empty before
            → let all = (before ++ on_shard self.old.shard packets.now) ++ rest in
            WellFormed all → Each (IsRightDone all) dones) }
        ensures values { OnOk result ((before : List ShardPacket) → state_of self.old ≡ run_state empty before
            → (state_of self.new).holding ≡ []
            → let came = before ++ on_shard self.old.shard packets.now in
            ((state_of self.new).waiting ≡ []) × (WellFormed came → (state_of self.new).values ≡ plain_end came)) }
    {
        let dones = run_named(self.alloc, self.shard, &mut self.table, packets);
        self.spent = dones.is_err();
        dones
    }

    /// The answer that is kept for an id and a phase, None exactly where none is. A store that took any
    /// packets keeps none of phase Conclude, since an outcome is decided. It needs a store that isn't spent.
    ///
    /// # Errors
    ///
    /// [`NoMemory`] where an allocation was refused.
    pub fn recorded(&self, id: TxnId, phase: Phase) -> Result<Option<Answer>, NoMemory>
        requires { self.now.spent ≡ false }
        ensures found { IfOk result (λ found. found ≡ (state_of self.now).recorded id phase) }
        ensures outcomes { IfOk result (λ found. (packets : List ShardPacket) → state_of self.now ≡ run_state empty packets
            → phase ≡ Conclude → found ≡ None) }
    {
        self.table.recorded(id, phase)
    }

    /// An equal store. It needs one that isn't spent.
    ///
    /// # Errors
    ///
    /// [`NoMemory`] where an allocation was refused.
    pub fn copy(&self) -> Result<LockStore, NoMemory>
        requires { self.now.spent ≡ false }
        ensures { IfOk result (λ made. made ≡ self.now) }
    {
        Ok(LockStore {
            alloc: self.alloc,
            shard: self.shard,
            table: self.table.copy()?,
            spent: self.spent,
        })
    }

    /// The value of a key, None exactly where it has none. It needs a store that isn't spent. It takes no
    /// memory.
    pub fn value_of(&self, key: &Key) -> Option<u64>
        requires { self.now.spent ≡ false }
        ensures { result ≡ (state_of self.now).values key.now }
    {
        self.table.value_of(key)
    }

    /// The keys that have a value, with it: each key once, in the order of keys. It needs a store that isn't
    /// spent, and doesn't spend it.
    ///
    /// # Errors
    ///
    /// [`NoMemory`] where an allocation was refused.
    pub fn entries(&self) -> Result<Row<Write>, NoMemory>
        requires { self.now.spent ≡ false }
        ensures { IfOk result (λ writes. IsListing (state_of self.now).values writes) }
    {
        self.table.entries()
    }

    /// Whether a call was refused memory that changes the store. Its other calls then may not be made any
    /// more.
    pub fn is_spent(&self) -> bool
        ensures { result ≡ self.now.spent }
    {
        self.spent
    }
}

impl Locks for LockStore {
    ghost use Rattle.eris_store.specs.Stores.{state_of};

    ghost state = { state_of };

    ghost shard = { λ store. store.shard };

    ghost spent = { λ store. store.spent };

    fn step(&mut self, packet: &Packet) -> Result<Row<Done>, NoMemory> {
        self.step(packet)
    }

    fn value_of(&self, key: &Key) -> Option<u64> {
        self.value_of(key)
    }
}
