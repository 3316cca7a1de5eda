ghost use Rattle.std.specs.Prelude.{◌≡◌, ◌&&◌, List, [], ◌∷◌, IfOk, OnOk};
ghost use Rattle.eris_txn.specs.KeyValues.{values_of};
ghost use Rattle.eris_locks.specs.declared.shard_packet.ShardPacket.{ShardPacket};
ghost use Rattle.eris_locks.specs.LockTable.{all_also, answer_of, arrive, arrive_new, conclude, conclude_first, done, end_holding, end_waiting, execute, holding_after, release, step, values_after};
ghost use Rattle.eris_locks.specs.States.{empty, is_decided, is_prelim};
ghost use Rattle.eris_plain_store.specs.Leaves.{conclude_holding, conclude_waiting, refuse};
ghost use Rattle.eris_plain_store.specs.Listings.{IsListing};

use crate::ledger::{Answers, ById};
use eris_base::{Dup, NoMemory, Phase, Place, Row, TxnId};
use eris_locks::{Done, Held, ShardPacket, phase_of};
use eris_plain_store::{
    Cells, add_aborted_late, done_for, holds, is_blocked, is_prelim, no_longer_holding,
    no_longer_waiting, only, waits, waits_prelim,
};
use eris_txn::{Answer, Body, Key, Write};
use std::alloc::Global;
use std::marker::Model;
use std::mem;

/// The lock table, kept in ordered maps. After a call was refused memory, nothing is said of what it keeps.
#[derive(Drop)]
pub(crate) struct Table {
    alloc: Global,
    values: Cells,
    answers: Answers,
    outcomes: ById,
    holding: Row<Held>,
    waiting: Row<ShardPacket>,
}

impl Model for Table {
    ghost use Rattle.eris_store.specs.MapValues.{MapValue};

    ghost Value = { MapValue };

    ghost view = { λ table. record { entries = table.values; answers = table.answers; outcomes = table.outcomes; holding = table.holding; waiting = table.waiting } };
}

impl Table {
    ghost use Rattle.eris_store.specs.MapValues.{map_state, map_stepped};

    pub fn new(alloc: Global) -> Table
        ensures { map_state result ≡ empty }
    {
        Table {
            alloc,
            values: Cells::new(alloc),
            answers: Answers::new(alloc),
            outcomes: ById::new(alloc),
            holding: Row::new(alloc),
            waiting: Row::new(alloc),
        }
    }

    pub fn copy(&self) -> Result<Table, NoMemory>
        ensures { IfOk result (λ made. made ≡ self.now) }
    {
        Ok(Table {
            alloc: self.alloc,
            values: self.values.copy()?,
            answers: self.answers.copy()?,
            outcomes: self.outcomes.copy()?,
            holding: self.holding.copy(self.alloc)?,
            waiting: self.waiting.copy(self.alloc)?,
        })
    }

    pub fn value_of(&self, key: &Key) -> Option<u64>
        ensures { result ≡ (map_state self.now).values key.now }
    {
        self.values.value_of(key)
    }

    pub fn entries(&self) -> Result<Row<Write>, NoMemory>
        ensures { IfOk result (λ writes. IsListing (map_state self.now).values writes) }
    {
        self.values.entries()
    }

    pub fn recorded(&self, id: TxnId, phase: Phase) -> Result<Option<Answer>, NoMemory>
        ensures { IfOk result (λ found. found ≡ (map_state self.now).recorded id phase) }
    {
        self.answers.find(id, phase)
    }

    /// Executes a packet and records its answer.
    fn execute(&mut self, at: Place, packet: &ShardPacket, late: bool) -> Result<Done, NoMemory>
        ensures state { OnOk result (map_state self.new ≡ execute (map_state self.old) packet.now) }
        ensures done { IfOk result (λ given. given ≡ done at packet.now (answer_of packet.now.body (map_state self.old).values) late) }
    {
        let answer = act(self.alloc, &mut self.values, &mut self.holding, packet)?;
        let kept = answer.copy(self.alloc)?;
        self.answers.note(packet.id, phase_of(&packet.body), kept)?;
        Ok(done_for(at, packet, answer, late))
    }

    /// THE LOCK TABLE: the step of one packet.
    pub fn step(&mut self, packet: ShardPacket) -> Result<Row<Done>, NoMemory>
        ensures { IfOk result (λ dones. map_stepped self.new dones ≡ step (map_state self.old) packet) }
    {
        match &packet.body {
            Body::Independent(_) => self.arrive(packet),
            Body::Prelim(_) => self.arrive(packet),
            Body::Commit(_, writes) => self.conclude(&packet, Answer::Committed, writes.as_slice()),
            Body::Abort(_) => self.conclude(&packet, Answer::Aborted, &[]),
        }
    }

    /// An Independent or a Prelim: a recorded answer is given again; where the same id waits, nothing.
    fn arrive(&mut self, packet: ShardPacket) -> Result<Row<Done>, NoMemory>
        ensures { IfOk result (λ dones. map_stepped self.new dones ≡ arrive (map_state self.old) packet) }
    {
        match self.recorded(packet.id, phase_of(&packet.body))? {
            Some(answer) => only(self.alloc, done_for(packet.at, &packet, answer, false)),
            None => {
                if waits(packet.id, self.waiting.as_slice()) {
                    return Ok(Row::new(self.alloc));
                }
                self.arrive_new(packet)
            }
        }
    }

    /// One that is neither recorded nor waiting: a preliminary that is too late is refused; one that is
    /// blocked waits; else it is executed.
    fn arrive_new(&mut self, packet: ShardPacket) -> Result<Row<Done>, NoMemory>
        ensures { IfOk result (λ dones. map_stepped self.new dones ≡ arrive_new (map_state self.old) packet) }
    {
        if self.is_too_late(&packet) {
            return self.refuse(&packet);
        }
        if is_blocked(
            self.alloc,
            self.holding.as_slice(),
            self.waiting.as_slice(),
            &packet.body,
        )? {
            self.waiting.push(packet)?;
            return Ok(Row::new(self.alloc));
        }
        let given = self.execute(packet.at, &packet, false)?;
        only(self.alloc, given)
    }

    /// Whether it is a preliminary whose id is decided.
    fn is_too_late(&self, packet: &ShardPacket) -> bool
        ensures { result ≡ (is_prelim packet.now.body && is_decided ((map_state self.now).decided packet.now.id)) }
    {
        is_prelim(&packet.body) && self.outcomes.has(packet.id)
    }

    /// Records and answers that a preliminary is aborted.
    fn refuse(&mut self, packet: &ShardPacket) -> Result<Row<Done>, NoMemory>
        ensures { IfOk result (λ dones. map_stepped self.new dones ≡ refuse (map_state self.old) packet.now) }
    {
        let phase = phase_of(&packet.body);
        self.answers.note(packet.id, phase, Answer::Aborted)?;
        only(
            self.alloc,
            done_for(packet.at, packet, Answer::Aborted, false),
        )
    }

    /// A Commit or an Abort: where the id is decided, its outcome is given again.
    fn conclude(
        &mut self,
        packet: &ShardPacket,
        outcome: Answer,
        writes: &[Write],
    ) -> Result<Row<Done>, NoMemory>
        ensures { IfOk result (λ dones. map_stepped self.new dones ≡ conclude (map_state self.old) packet.now outcome writes.now) }
    {
        match self.outcomes.find(packet.id)? {
            Some(decided) => only(self.alloc, done_for(packet.at, packet, decided, false)),
            None => self.conclude_first(packet, outcome, writes),
        }
    }

    /// A Commit or an Abort of an id that isn't decided: its preliminary holds, it waits, or neither.
    fn conclude_first(
        &mut self,
        packet: &ShardPacket,
        outcome: Answer,
        writes: &[Write],
    ) -> Result<Row<Done>, NoMemory>
        ensures { IfOk result (λ dones. map_stepped self.new dones ≡ conclude_first (map_state self.old) packet.now outcome writes.now) }
    {
        if holds(packet.id, self.holding.as_slice()) {
            return self.conclude_holding(packet, outcome, writes);
        }
        if waits_prelim(packet.id, self.waiting.as_slice()) {
            return self.conclude_waiting(packet);
        }
        self.outcomes.put(packet.id, Answer::Aborted)?;
        only(
            self.alloc,
            done_for(packet.at, packet, Answer::Aborted, false),
        )
    }

    /// Ends a preliminary that holds, and releases what it blocked.
    fn conclude_holding(
        &mut self,
        packet: &ShardPacket,
        outcome: Answer,
        writes: &[Write],
    ) -> Result<Row<Done>, NoMemory>
        ensures { IfOk result (λ dones. map_stepped self.new dones ≡ conclude_holding (map_state self.old) packet.now outcome writes.now) }
    {
        let kept = outcome.copy(self.alloc)?;
        let waiting = self.end_holding(packet, kept, writes)?;
        let mut dones = only(self.alloc, done_for(packet.at, packet, outcome, false))?;
        self.release(packet.at, waiting, &mut dones)?;
        Ok(dones)
    }

    /// Ends a preliminary that holds: makes its writes, decides its outcome and takes away its locks.
    /// Answers the packets that waited, which no longer wait.
    fn end_holding(
        &mut self,
        packet: &ShardPacket,
        outcome: Answer,
        writes: &[Write],
    ) -> Result<Row<ShardPacket>, NoMemory>
        ensures state { OnOk result (map_state self.new ≡ end_holding (map_state self.old) packet.now outcome writes.now) }
        ensures waiting { IfOk result (λ waiting. waiting ≡ self.old.waiting) }
    {
        self.values.write_all(writes)?;
        self.outcomes.put(packet.id, outcome)?;
        let holding = mem::replace(&mut self.holding, Row::new(self.alloc));
        self.holding = no_longer_holding(packet.id, holding);
        Ok(mem::replace(&mut self.waiting, Row::new(self.alloc)))
    }

    /// Ends a preliminary that waits, and releases what it blocked.
    fn conclude_waiting(&mut self, packet: &ShardPacket) -> Result<Row<Done>, NoMemory>
        ensures { IfOk result (λ dones. map_stepped self.new dones ≡ conclude_waiting (map_state self.old) packet.now) }
    {
        let waiting = self.end_waiting(packet)?;
        let mut dones = only(
            self.alloc,
            done_for(packet.at, packet, Answer::Aborted, false),
        )?;
        add_aborted_late(&mut dones, packet.at, packet.id, waiting.as_slice())?;
        let others = no_longer_waiting(packet.id, waiting);
        self.release(packet.at, others, &mut dones)?;
        Ok(dones)
    }

    /// Ends a preliminary that waits: records and decides that it is aborted. Answers the packets that
    /// waited, which no longer wait.
    fn end_waiting(&mut self, packet: &ShardPacket) -> Result<Row<ShardPacket>, NoMemory>
        ensures state { OnOk result (map_state self.new ≡ end_waiting (map_state self.old) packet.now) }
        ensures waiting { IfOk result (λ waiting. waiting ≡ self.old.waiting) }
    {
        self.answers
            .note(packet.id, Phase::Prelim, Answer::Aborted)?;
        self.outcomes.put(packet.id, Answer::Aborted)?;
        Ok(mem::replace(&mut self.waiting, Row::new(self.alloc)))
    }

    /// Goes through waiting packets in order of place: each that isn't blocked is executed and answered
    /// late, and the others wait.
    fn release(
        &mut self,
        at: Place,
        waiting: Row<ShardPacket>,
        dones: &mut Row<Done>,
    ) -> Result<(), NoMemory>
        ensures { OnOk result (map_stepped self.new dones.new ≡ all_also dones.old (release at (map_state self.old) [] waiting)) }
    {
        let mut before = Row::new(self.alloc);
        for packet in waiting.into_vec() {
            self.release_one(at, &mut before, packet, dones)?;
        }
        self.waiting = before;
        Ok(())
    }

    /// Executes a waiting packet and answers it late, where those that stay before it don't block it;
    /// else it stays behind them.
    fn release_one(
        &mut self,
        at: Place,
        before: &mut Row<ShardPacket>,
        packet: ShardPacket,
        dones: &mut Row<Done>,
    ) -> Result<(), NoMemory>
        ensures { OnOk result ((rest : List ShardPacket)
            → all_also dones.new (release at (map_state self.new) before.new rest)
            ≡ all_also dones.old (release at (map_state self.old) before.old (packet ∷ rest))) }
    {
        if is_blocked(
            self.alloc,
            self.holding.as_slice(),
            before.as_slice(),
            &packet.body,
        )? {
            return before.push(packet);
        }
        let given = self.execute(at, &packet, true)?;
        dones.push(given)
    }
}

/// What executing a packet changes but for its record, and its answer.
fn act(
    alloc: Global,
    values: &mut Cells,
    holding: &mut Row<Held>,
    packet: &ShardPacket,
) -> Result<Answer, NoMemory>
    ensures answer { IfOk result (λ answer. answer ≡ answer_of packet.now.body (values_of values.old)) }
    ensures values { OnOk result (values_of values.new ≡ values_after packet.now.body (values_of values.old)) }
    ensures holding { OnOk result (holding.new ≡ holding_after packet.now.id packet.now.body holding.old) }
{
    match &packet.body {
        Body::Independent(ops) => Ok(Answer::Ops(values.apply_all(ops.as_slice())?)),
        Body::Prelim(locks) => {
            let read = values.read_all(locks.as_slice())?;
            holding.push(Held {
                id: packet.id,
                locks: locks.copy(alloc)?,
            })?;
            Ok(Answer::Values(read))
        }
        Body::Commit(_, _) => Ok(Answer::Committed),
        Body::Abort(_) => Ok(Answer::Aborted),
    }
}
