ghost use Rattle.std.specs.Prelude.{◌≡◌, ◌≢◌, ℕ, ◌+◌, ◌<◌, ◌≤◌, Bool, true, false, [], ◌∷◌, ◌++◌, IfOk, OnOk, OnErr, IfErr, Some, None};
ghost use Rattle.eris_journal.specs.Answers.{TookTurn, GivesFetched, WasFree, WasRefused};
ghost use Rattle.eris_journal.specs.Lists.{own, Has};
ghost use Rattle.eris_journal.specs.Parts.{Refused, part_of, Grows, IsStuck, NamesNodes, is_limit};
ghost use Rattle.eris_journal.specs.Seats.{IsSeatOf, IsHandOf, AllJoined, left_by_seat};
ghost use Rattle.eris_journal.specs.Turns.{free_view, holding_view, noting, freed, Tells, MayGive};
ghost use Rattle.eris_journal.specs.declared.views.Joined.{Joined};
ghost use Rattle.eris_journal.specs.declared.views.Known.{Known};
ghost use Rattle.eris_journal.specs.declared.views.Part.{Part};

use crate::add_fault::AddFault;
use crate::fetched::Fetched;
use crate::hand::Hand;
use crate::law::{Deals, Law, Releases, ReleasesFull, Takes};
use crate::legal::Legal;
use crate::seat::NodeSeat;
use crate::views::{Part, View};
use atomic_table::{Seat, Table};
use eris_base::NoMemory;
use std::alloc::Global;
use std::marker::Model;
use std::snapshot::Snapshot;
use std::sync::Wait;
use std::thread;

/// A book that threads take in turn. Contracts see which journal it is, and the book that it was
/// started with.
#[derive(Drop)]
pub struct Journal<L: Legal> {
    table: Table<Option<L>, View<L, Part<L::Entry>>, Snapshot<L>, Law<L>, Global>,
}

impl<L: Legal> Model for Journal<L> {
    ghost use Rattle.std.specs.Prelude.{◌≡◌};
    ghost use Rattle.eris_journal.specs.Seats.{JournalValue};

    ghost Value = { JournalValue L };

    ghost view = { λ j. record { table = j.table.shared.table_id; start = j.table.shared.key.value } };

    ghost invariant = { λ j. (j.table.shared.table_id.words ≡ 1) × (j.table.shared.table_id.slots ≡ 1) };
}

impl<L: Legal> Journal<L> {
    /// A journal of this book for nodes numbered from 0, and its hand. It asks for at least one
    /// node, and for a legal book with no refused entry, which names only these nodes.
    ///
    /// # Errors
    ///
    /// After [`NoMemory`] the book is dropped.
    pub fn start(alloc: Global, book: L, nodes: u32) -> Result<(Journal<L>, Hand<L>), NoMemory>
        requires nodes { 1 ≤ nodes }
        requires legal { L.legal book }
        requires refused { L.refused book ≡ None }
        requires names { NamesNodes L.entries L.fetches L.refused nodes book }
        ensures journal { IfOk result (λ r. r.0.start ≡ book) }
        ensures hand { IfOk result (λ r. IsHandOf r.0 r.1 × (r.1.nodes ≡ nodes) × (r.1.count ≡ 0) × (r.1.kept ≡ [])) }
    {
        let about = Snapshot::of(&book);
        let start = Snapshot::of(&book);
        let mut slots = Vec::new(alloc);
        slots.push(Some(book))?;
        match Table::new(alloc, &[0], slots, &about) {
            Ok((table, seat)) => {
                let hand = Hand {
                    nodes,
                    count: 0,
                    start,
                    seat,
                };
                Ok((Journal { table }, hand))
            }
            Err(_) => Err(NoMemory),
        }
    }

    /// The seat of the next node, from 0. It asks that fewer seats were split than there are nodes.
    /// It takes no memory.
    pub fn split(&self, hand: &mut Hand<L>) -> NodeSeat<L>
        requires own { IsHandOf self.now hand.old }
        requires room { hand.old.count < hand.old.nodes }
        ensures hand { IsHandOf self.now hand.new × (hand.new.nodes ≡ hand.old.nodes) × (hand.new.count ≡ hand.old.count + 1) × (hand.new.kept ≡ hand.old.kept) }
        ensures seat { IsSeatOf self.now result × (result.node ≡ hand.old.count) × (result.turns ≡ 0) × (result.full ≡ false) }
        ensures lists { (result.part.entries ≡ own hand.old.count (L.entries self.now.start)) × (result.part.fetches ≡ own hand.old.count (L.fetches self.now.start)) }
        ensures refused { result.part.refused ≡ None }
    {
        let Hand {
            nodes: _,
            count,
            start: _,
            seat,
        } = hand;
        let node = *count;
        let new = self.table.shared.split_seat::<Deals<L>>(seat);
        *count = node + 1;
        NodeSeat { node, seat: new }
    }

    /// Takes the turn and fetches the packet that is pending for the seat's node, if one is.
    ///
    /// # Errors
    ///
    /// After [`NoMemory`] the book and the seat's two lists are as before.
    pub fn fetch<R: Wait>(
        &self,
        rt: &R,
        seat: &mut NodeSeat<L>,
    ) -> Result<Option<Fetched>, NoMemory>
        requires own { IsSeatOf self.now seat.old }
        ensures turn { TookTurn L.entries L.fetches L.refused L.legal self.now seat.old seat.new }
        ensures kept { (seat.new.part.entries ≡ seat.old.part.entries) × (seat.new.part.refused ≡ seat.old.part.refused) × (seat.new.full ≡ seat.old.full) }
        ensures fetched { IfOk result (λ r. GivesFetched L.entries L.fetches L.refused L.sends seat.old seat.new r) }
        ensures err { OnErr result (seat.new.part.fetches ≡ seat.old.part.fetches) }
    {
        let NodeSeat { node, seat } = seat;
        let mut found = self.take(rt, seat);
        let answer = found.fetch(*node);
        self.give(seat, found, false);
        answer
    }

    /// Takes the turn and adds the entry of the seat's node. It asks for a step of the node, after
    /// what the seat knows.
    ///
    /// # Errors
    ///
    /// Those of the book that is found at the turn. After a limit the seat says that it is full,
    /// and it keeps the entry and the cause where that book had no refused entry. After
    /// [`NoMemory`](AddFault::NoMemory) the book and the seat's two lists are as before.
    pub fn append<R: Wait>(
        &self,
        rt: &R,
        seat: &mut NodeSeat<L>,
        entry: L::Entry,
    ) -> Result<(), AddFault>
        requires own { IsSeatOf self.now seat.old }
        requires step { L.is_step seat.old.node seat.old.part.entries seat.old.part.fetches entry }
        ensures turn { TookTurn L.entries L.fetches L.refused L.legal self.now seat.old seat.new }
        ensures kept { seat.new.part.fetches ≡ seat.old.part.fetches }
        ensures added { OnOk result ((seat.new.part.entries ≡ seat.old.part.entries ++ entry ∷ []) × (seat.new.part.refused ≡ seat.old.part.refused) × (seat.new.full ≡ seat.old.full)) }
        ensures free { OnOk result (WasFree L.entries L.fetches L.refused L.limit seat.new entry) }
        ensures same { OnErr result (seat.new.part.entries ≡ seat.old.part.entries) }
        ensures err { IfErr result (λ fault. WasRefused L.entries L.fetches L.refused L.limit seat.old seat.new entry fault) }
    {
        let NodeSeat { node, seat } = seat;
        let mut book = self.take(rt, seat);
        let answer = book.add(*node, entry);
        self.give(seat, book, is_limit(&answer));
        answer
    }

    /// The hand keeps what the seat knows. It takes no memory.
    pub fn join(&self, hand: &mut Hand<L>, seat: NodeSeat<L>)
        requires hand { IsHandOf self.now hand.old }
        requires seat { IsSeatOf self.now seat }
        ensures hand { IsHandOf self.now hand.new × (hand.new.nodes ≡ hand.old.nodes) × (hand.new.count ≡ hand.old.count) }
        ensures kept { hand.new.kept ≡ left_by_seat seat ∷ hand.old.kept }
    {
        let Hand {
            nodes: _,
            count: _,
            start: _,
            seat: mine,
        } = hand;
        let NodeSeat { node: _, seat } = seat;
        self.table.shared.join_seat::<Deals<L>>(mine, seat);
    }

    /// The book, at the end. It asks that each seat that was split was joined.
    pub fn close(self, hand: Hand<L>) -> L
        requires own { IsHandOf self hand }
        requires joined { AllJoined hand }
        ensures legal { L.legal result }
        ensures grows { Grows L.entries L.fetches L.refused self.start result }
        ensures seats { (x : Joined (Part L.Entry)) → Has hand.kept x → (own x.node (L.entries result) ≡ x.part.entries) × (own x.node (L.fetches result) ≡ x.part.fetches) }
        ensures others { (node : ℕ) → hand.count ≤ node → (own node (L.entries result) ≡ own node (L.entries self.start)) × (own node (L.fetches result) ≡ own node (L.fetches self.start)) }
        ensures names { NamesNodes L.entries L.fetches L.refused hand.nodes result }
        ensures full { (x : Joined (Part L.Entry)) → Has hand.kept x → x.full ≡ true → IsStuck L.refused result }
        ensures refused { (r : Refused L.Entry) → L.refused result ≡ Some r → (x : Joined (Part L.Entry)) × Has hand.kept x × (x.node ≡ r.0) × (x.part.refused ≡ Some r.1) }
    {
        let Journal { table } = self;
        let Hand {
            nodes: _,
            count: _,
            start: _,
            seat,
        } = hand;
        let mut closed = table.close_with(seat);
        let book = closed.take(0);
        closed.free();
        let Some(book) = book else { unreachable!() };
        book
    }

    // Waits for the turn.
    fn wait_turn<R: Wait>(&self, rt: &R, seat: &mut Seat<Option<L>, View<L, Part<L::Entry>>>)
        requires own { seat.old.table_id ≡ self.now.table }
        requires free { (known : Known L (Part L.Entry)) × (seat.old.me ≡ (free_view known, [])) }
        ensures seat { (seat.new.table_id ≡ seat.old.table_id) × (seat.new.id ≡ seat.old.id) }
        ensures view { (known : Known L (Part L.Entry)) × (book : L) × (seat.old.me ≡ (free_view known, [])) × (seat.new.me ≡ (holding_view (noting known book) book, (0, Some book) ∷ [])) × Tells L.legal (Grows L.entries L.fetches L.refused) (part_of L.entries L.fetches L.refused) (IsStuck L.refused) known book }
    {
        for _ in rt.forever() {
            if self.table.shared.compare_exchange::<Takes>(seat, 0, 0, 1) == 0 {
                return;
            }
            thread::yield_now();
        }
        unreachable!()
    }

    // Waits for the turn, and takes the book out.
    fn take<R: Wait>(&self, rt: &R, seat: &mut Seat<Option<L>, View<L, Part<L::Entry>>>) -> L
        requires own { seat.old.table_id ≡ self.now.table }
        requires free { (known : Known L (Part L.Entry)) × (seat.old.me ≡ (free_view known, [])) }
        ensures seat { (seat.new.table_id ≡ seat.old.table_id) × (seat.new.id ≡ seat.old.id) }
        ensures view { (known : Known L (Part L.Entry)) × (seat.old.me ≡ (free_view known, [])) × (seat.new.me ≡ (holding_view (noting known result) result, (0, None) ∷ [])) × Tells L.legal (Grows L.entries L.fetches L.refused) (part_of L.entries L.fetches L.refused) (IsStuck L.refused) known result }
    {
        self.wait_turn(rt, seat);
        let Some(book) = self.table.shared.exchange(seat, 0, None) else {
            unreachable!()
        };
        book
    }

    // Puts the book back, and releases the turn.
    fn give(&self, seat: &mut Seat<Option<L>, View<L, Part<L::Entry>>>, book: L, full: bool)
        requires own { seat.old.table_id ≡ self.now.table }
        requires held { (known : Known L (Part L.Entry)) × (found : L) × (seat.old.me ≡ (holding_view known found, (0, None) ∷ [])) × MayGive L.legal (Grows L.entries L.fetches L.refused) (part_of L.entries L.fetches L.refused) (IsStuck L.refused) full known found book }
        ensures seat { (seat.new.table_id ≡ seat.old.table_id) × (seat.new.id ≡ seat.old.id) }
        ensures view { (known : Known L (Part L.Entry)) (found : L) → seat.old.me ≡ (holding_view known found, (0, None) ∷ []) → seat.new.me ≡ (free_view (freed (part_of L.entries L.fetches L.refused) full known book), []) }
    {
        let was = self.table.shared.exchange(seat, 0, Some(book));
        let None = was else { unreachable!() };
        if full {
            self.table.shared.store::<ReleasesFull>(seat, 0, 0);
        } else {
            self.table.shared.store::<Releases>(seat, 0, 0);
        }
    }
}

// Whether the answer is a limit's.
fn is_limit(answer: &Result<(), AddFault>) -> bool
    ensures { result ≡ is_limit answer.now }
{
    match answer {
        Ok(()) => false,
        Err(AddFault::NoMemory) => false,
        Err(AddFault::Packets) => true,
        Err(AddFault::Bytes) => true,
    }
}
