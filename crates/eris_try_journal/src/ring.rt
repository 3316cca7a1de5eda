ghost use Rattle.std.specs.Prelude.{◌≤◌, length};
ghost use Rattle.eris_journal.specs.Packets.{sent};
ghost use Rattle.eris_try_journal.specs.Bytes.{sends};

use crate::book::SmallBook;
use crate::crew::{join_all, split_all};
use crate::entries::entry_of;
use crate::workers::{Work, run_all};
use anyhow::bail;
use eris_base::NoMemory;
use eris_journal::{Journal, Legal};
use std::alloc::Global;
use std::sync::Wait;
use std::thread::Threads;

/// The nodes send in a ring, each from a thread of its own.
pub(crate) fn ring<R: Threads + Wait + Sync>(rt: &R, work: Work) -> Result<SmallBook, NoMemory>
    requires { (1 ≤ work.nodes) × (work.nodes ≤ 16) }
{
    let book = SmallBook::new(work.alloc, u32::MAX);
    let (journal, mut hand) = Journal::start(work.alloc, book, work.nodes)?;
    let mut seats = split_all(work.alloc, &journal, &mut hand, work.nodes)?;
    run_all(rt, &journal, work, seats.as_mut_slice());
    join_all(&journal, &mut hand, seats);
    Ok(journal.close(hand))
}

/// The same book with no journal and no threads: the nodes take their turns one after another.
pub(crate) fn plain(alloc: Global, nodes: u32, count: u32) -> anyhow::Result<SmallBook>
    requires { (1 ≤ nodes) × (nodes ≤ 16) }
{
    let mut book = SmallBook::new(alloc, u32::MAX);
    for number in 0..count {
        round(alloc, &mut book, nodes, (number % 256) as u8)?;
    }
    book.fetch(0)?;
    Ok(book)
}

// Each node adds one entry, and looks for a packet.
fn round(alloc: Global, book: &mut SmallBook, nodes: u32, byte: u8) -> anyhow::Result<()>
    requires nodes { (1 ≤ nodes) × (nodes ≤ 16) }
    requires legal { length (sent sends book.old.entries) ≤ book.old.most }
    ensures legal { length (sent sends book.new.entries) ≤ book.new.most }
{
    for node in 0..nodes {
        let to = if node + 1 < nodes { node + 1 } else { 0 };
        let entry = entry_of(alloc, &[(to, byte)])?;
        if book.add(node, entry).is_err() {
            bail!("an entry was refused");
        }
        book.fetch(node)?;
    }
    Ok(())
}

/// Whether the book has of each of these nodes this many entries, in the order 0, 1, 2, .. of what
/// they send.
pub(crate) fn is_in_order(book: &SmallBook, nodes: u32, count: u32) -> bool {
    let mut made = [0u32; 16];
    for (node, entry) in book.entries() {
        let Some(next) = made.get_mut(*node as usize) else {
            return false;
        };
        let [(_, byte)] = entry.as_slice() else {
            return false;
        };
        if u32::from(*byte) != *next % 256 {
            return false;
        }
        *next = next.saturating_add(1);
    }
    have_all(&made, nodes, count)
}

// Whether each of the first nodes made this many, and no other made any.
fn have_all(made: &[u32], nodes: u32, count: u32) -> bool {
    for (node, number) in made.iter().enumerate() {
        let wanted = if node < nodes as usize { count } else { 0 };
        if *number != wanted {
            return false;
        }
    }
    true
}

/// Whether each packet was fetched, and no packet twice.
pub(crate) fn is_fetched_once(alloc: Global, book: &SmallBook) -> Result<bool, NoMemory> {
    let packets = book.entries().len();
    let mut seen = Vec::new(alloc);
    for _ in 0..packets {
        seen.push(false)?;
    }
    for (_, packet) in book.fetches() {
        let Some(was) = seen.get_mut(packet.number as usize) else {
            return Ok(false);
        };
        if *was {
            return Ok(false);
        }
        *was = true;
    }
    Ok(book.fetches().len() == packets)
}
