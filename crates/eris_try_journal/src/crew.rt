//! The seats of a journal's nodes, whatever its book is.
ghost use Rattle.std.specs.Prelude.{◌≡◌, ℕ, ◌+◌, ◌<◌, All, length, vec_len, IfOk, slice_index_or};
ghost use Rattle.eris_journal.specs.Seats.{IsSeatOf, IsHandOf, AllJoined};
ghost use Rattle.eris_try_journal.specs.SeatLists.{AreSeats};

use crate::book::NODES;
use eris_base::NoMemory;
use eris_journal::{Hand, Journal, Legal, NodeSeat};
use std::alloc::Global;
use std::sync::Wait;
use std::thread;
use std::thread::Threads;

/// The seats of all nodes, which are so many.
pub(crate) fn split_all<L: Legal>(
    alloc: Global,
    journal: &Journal<L>,
    hand: &mut Hand<L>,
    nodes: u32,
) -> Result<Vec<NodeSeat<L>>, NoMemory>
    requires own { IsHandOf journal.now hand.old }
    requires none { (hand.old.count ≡ 0) × (hand.old.nodes ≡ nodes) }
    ensures hand { IsHandOf journal.now hand.new × (hand.new.nodes ≡ nodes) }
    ensures seats { IfOk result (λ seats. (vec_len seats ≡ nodes) × (hand.new.count ≡ nodes) × AreSeats journal.now nodes seats.items) }
{
    let mut seats = Vec::new(alloc);
    for _ in 0..nodes {
        seats.push(journal.split(hand))?;
    }
    Ok(seats)
}

/// Each seat looks once for what is pending for its node, in a thread of its own. What it finds is
/// noted in the book.
pub(crate) fn look_all<R: Threads + Wait + Sync, L: Legal + Send>(
    rt: &R,
    journal: &Journal<L>,
    seats: &mut [NodeSeat<L>],
)
where
    L::Entry: Send,
    requires { All (λ seat. IsSeatOf journal.now seat) seats.old }
    ensures len { length seats.new ≡ length seats.old }
    ensures journal { (i : ℕ) (d : _) → i < length seats.old → IsSeatOf journal.now (slice_index_or seats.new i d) }
    ensures nodes { (i : ℕ) (d : _) → i < length seats.old → (slice_index_or seats.new i d).node ≡ (slice_index_or seats.old i d).node }
    ensures turns { (i : ℕ) (d : _) → i < length seats.old → (slice_index_or seats.new i d).turns ≡ (slice_index_or seats.old i d).turns + 1 }
{
    thread::for_each_mut(
        rt,
        seats,
        NODES as usize,
        &|_, seat| look(rt, journal, seat),
    );
}

// Looks once.
fn look<R: Wait, L: Legal>(rt: &R, journal: &Journal<L>, seat: &mut NodeSeat<L>)
    requires { IsSeatOf journal.now seat.old }
    ensures journal { IsSeatOf journal.now seat.new }
    ensures node { seat.new.node ≡ seat.old.node }
    ensures turns { seat.new.turns ≡ seat.old.turns + 1 }
{
    let _ = journal.fetch(rt, seat);
}

/// Joins all seats.
pub(crate) fn join_all<L: Legal>(
    journal: &Journal<L>,
    hand: &mut Hand<L>,
    mut seats: Vec<NodeSeat<L>>,
)
    requires own { IsHandOf journal.now hand.old }
    requires count { vec_len seats ≡ hand.old.count }
    requires seats { AreSeats journal.now (vec_len seats) seats.items }
    ensures hand { IsHandOf journal.now hand.new }
    ensures joined { AllJoined hand.new }
{
    while let Some(seat) = seats.pop() {
        journal.join(hand, seat);
    }
}
