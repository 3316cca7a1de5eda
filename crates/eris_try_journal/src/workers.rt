ghost use Rattle.std.specs.Prelude.{◌≡◌, ℕ, ◌<◌, All, length, slice_index_or};
ghost use Rattle.eris_journal.specs.Seats.{IsSeatOf};

use crate::book::{NODES, SmallBook};
use crate::crew::look_all;
use crate::entries::entry_of;
use eris_journal::{Journal, NodeSeat};
use std::alloc::Global;
use std::sync::Wait;
use std::sync::atomic::{AtomicBool, Ordering};
use std::thread;
use std::thread::Threads;

/// What each node of a ring does: it adds so many entries, and waits until so many packets came.
#[derive(Clone, Copy)]
pub(crate) struct Work {
    pub(crate) alloc: Global,
    pub(crate) nodes: u32,
    pub(crate) entries: u32,
    pub(crate) packets: u32,
}

/// All nodes work, each in a thread of its own; then each looks once more.
pub(crate) fn run_all<R: Threads + Wait + Sync>(
    rt: &R,
    journal: &Journal<SmallBook>,
    work: Work,
    seats: &mut [NodeSeat<SmallBook>],
)
    requires { All (λ seat. IsSeatOf journal.now seat) seats.old }
    ensures len { length seats.new ≡ length seats.old }
    ensures journal { (i : ℕ) (d : _) → i < length seats.old → IsSeatOf journal.now (slice_index_or seats.new i d) }
    ensures nodes { (i : ℕ) (d : _) → i < length seats.old → (slice_index_or seats.new i d).node ≡ (slice_index_or seats.old i d).node }
{
    work_all(rt, journal, work, seats);
    look_all(rt, journal, seats);
}

// All nodes work, each in a thread of its own.
fn work_all<R: Threads + Wait + Sync>(
    rt: &R,
    journal: &Journal<SmallBook>,
    work: Work,
    seats: &mut [NodeSeat<SmallBook>],
)
    requires { All (λ seat. IsSeatOf journal.now seat) seats.old }
    ensures len { length seats.new ≡ length seats.old }
    ensures journal { (i : ℕ) (d : _) → i < length seats.old → IsSeatOf journal.now (slice_index_or seats.new i d) }
    ensures nodes { (i : ℕ) (d : _) → i < length seats.old → (slice_index_or seats.new i d).node ≡ (slice_index_or seats.old i d).node }
{
    let stop = AtomicBool::new(false);
    let stop = &stop;
    thread::for_each_mut(
        rt,
        seats,
        NODES as usize,
        &|node, seat| work_on(rt, journal, stop, work, node, seat),
    );
}

// The node that a ring's node sends to: the next one, and the first after the last.
fn next_node(node: usize, nodes: u32) -> u32
    ensures { result < 16 }
{
    let next = node.saturating_add(1);
    if next < nodes as usize && next < NODES as usize {
        next as u32
    } else {
        0
    }
}

// The node of this number works, and all stop where it can't go on.
fn work_on<R: Wait>(
    rt: &R,
    journal: &Journal<SmallBook>,
    stop: &AtomicBool,
    work: Work,
    node: usize,
    seat: &mut NodeSeat<SmallBook>,
)
    requires { IsSeatOf journal.now seat.old }
    ensures journal { IsSeatOf journal.now seat.new }
    ensures node { seat.new.node ≡ seat.old.node }
{
    let to = next_node(node, work.nodes);
    if !is_done(rt, journal, stop, work, to, seat) {
        stop.store(true, Ordering::SeqCst);
    }
}

// Adds the entries, and waits for the packets. Whether nothing was refused.
fn is_done<R: Wait>(
    rt: &R,
    journal: &Journal<SmallBook>,
    stop: &AtomicBool,
    work: Work,
    to: u32,
    seat: &mut NodeSeat<SmallBook>,
) -> bool
    requires own { IsSeatOf journal.now seat.old }
    requires near { to < 16 }
    ensures journal { IsSeatOf journal.now seat.new }
    ensures node { seat.new.node ≡ seat.old.node }
{
    let Some(came) = turns(rt, journal, work, to, seat) else {
        return false;
    };
    wait_for(rt, journal, stop, work.packets.saturating_sub(came), seat)
}

// Adds the entries, and looks for a packet after each. How many came, if nothing was refused.
fn turns<R: Wait>(
    rt: &R,
    journal: &Journal<SmallBook>,
    work: Work,
    to: u32,
    seat: &mut NodeSeat<SmallBook>,
) -> Option<u32>
    requires own { IsSeatOf journal.now seat.old }
    requires near { to < 16 }
    ensures journal { IsSeatOf journal.now seat.new }
    ensures node { seat.new.node ≡ seat.old.node }
{
    let mut came = 0u32;
    for number in 0..work.entries {
        let byte = (number % 256) as u8;
        came = came.saturating_add(turn(rt, work.alloc, journal, (to, byte), seat)?);
    }
    Some(came)
}

// Adds one entry of this pair, and looks for a packet. How many came, if nothing was refused.
fn turn<R: Wait>(
    rt: &R,
    alloc: Global,
    journal: &Journal<SmallBook>,
    pair: (u32, u8),
    seat: &mut NodeSeat<SmallBook>,
) -> Option<u32>
    requires own { IsSeatOf journal.now seat.old }
    requires near { pair.0 < 16 }
    ensures journal { IsSeatOf journal.now seat.new }
    ensures node { seat.new.node ≡ seat.old.node }
{
    let Ok(entry) = entry_of(alloc, &[pair]) else {
        return None;
    };
    if journal.append(rt, seat, entry).is_err() {
        return None;
    }
    match journal.fetch(rt, seat) {
        Ok(Some(_)) => Some(1),
        Ok(None) => Some(0),
        Err(_) => None,
    }
}

// Looks for packets until so many came, or another thread stopped. Whether nothing was refused.
fn wait_for<R: Wait>(
    rt: &R,
    journal: &Journal<SmallBook>,
    stop: &AtomicBool,
    mut missing: u32,
    seat: &mut NodeSeat<SmallBook>,
) -> bool
    requires { IsSeatOf journal.now seat.old }
    ensures journal { IsSeatOf journal.now seat.new }
    ensures node { seat.new.node ≡ seat.old.node }
{
    for _ in rt.forever() {
        if missing == 0 || stop.load(Ordering::SeqCst) {
            return true;
        }
        match journal.fetch(rt, seat) {
            Ok(Some(_)) => missing = missing.saturating_sub(1),
            Ok(None) => thread::yield_now(),
            Err(_) => return false,
        }
    }
    unreachable!()
}
