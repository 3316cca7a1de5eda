//! Tries the journal with a small book, whose entries are lists of pairs of a node and a byte. A
//! line names what is tried, and it prints what the calls answer and what the closed book has:
//!
//! - `deliver`: node 0 sends the byte 7 to node 1, which looks twice; the closed book is started
//!   again, node 1 looks again, and node 0 sends the byte 8.
//! - `refuse`: a book that takes one packet is given three.
//! - `ring NODES ENTRIES`: each of 1 to 16 nodes, in a thread of its own, adds so many entries, each
//!   of which sends a byte to the next node, and fetches until as many packets came. It prints how
//!   many entries the closed book has, whether those of each node are in the order in which they
//!   were added, and whether each packet was fetched once.
//! - `plain NODES ENTRIES`: the same entries and packets in the book alone, with no journal.
//! - `look NODES`: each node adds one entry and looks once, and all look once more, each from a
//!   thread of its own. It prints the same of the closed book.
//!
//! Any other line is printed as it is.
#![tactic(auto)]

ghost use Rattle.std.specs.Prelude.{◌≤◌, IfOk};

mod book;
mod crew;
mod entries;
mod pair;
mod ring;
mod rows;
mod tells;
mod workers;

use anyhow::{Context, bail};
use book::{NODES, SmallBook};
use ring::{is_fetched_once, is_in_order, plain, ring};
use rows::{deliver, refuse};
use std::alloc::Global;
use std::sync::Wait;
use std::thread::Threads;
use tells::Told;
use workers::Work;

fn main(rt: HostRuntime) -> anyhow::Result<()> {
    for line in rt.lines(rt.alloc()) {
        let line = line?;
        let mut told = Told {
            text: String::new(rt.alloc()),
        };
        tell(&rt, rt.alloc(), &mut told, line.as_str())?;
        print!(rt; "{}", told.text)?;
    }
    Ok(())
}

fn tell<R: Threads + Wait + Sync>(
    rt: &R,
    alloc: Global,
    told: &mut Told,
    line: &str,
) -> anyhow::Result<()> {
    match line.split_once(' ') {
        Some(("ring", words)) => {
            let (nodes, count) = sizes(words)?;
            ring_of(rt, alloc, told, nodes, count, count)
        }
        Some(("look", word)) => {
            let nodes = nodes_of(word)?;
            ring_of(rt, alloc, told, nodes, 1, 0)
        }
        Some(("plain", words)) => {
            let (nodes, count) = sizes(words)?;
            sum_up(alloc, told, &plain(alloc, nodes, count)?, nodes, count)
        }
        None if line == "deliver" => deliver(rt, alloc, told),
        None if line == "refuse" => refuse(rt, alloc, told),
        _ => Ok(told.line(line)?),
    }
}

// How many nodes there are, and how many entries each adds.
fn sizes(words: &str) -> anyhow::Result<(u32, u32)>
    ensures { IfOk result (λ r. (1 ≤ r.0) × (r.0 ≤ 16)) }
{
    let (nodes, count) = words.split_once(' ').context("two sizes")?;
    Ok((nodes_of(nodes)?, count.parse::<u32>()?))
}

// How many nodes there are.
fn nodes_of(word: &str) -> anyhow::Result<u32>
    ensures { IfOk result (λ nodes. (1 ≤ nodes) × (nodes ≤ 16)) }
{
    let nodes = word.parse::<u32>()?;
    if nodes == 0 || nodes > NODES {
        bail!("the number of nodes is 1 to 16");
    }
    Ok(nodes)
}

// A ring in which each node adds so many entries and waits for so many packets.
fn ring_of<R: Threads + Wait + Sync>(
    rt: &R,
    alloc: Global,
    told: &mut Told,
    nodes: u32,
    entries: u32,
    packets: u32,
) -> anyhow::Result<()>
    requires { (1 ≤ nodes) × (nodes ≤ 16) }
{
    let work = Work {
        alloc,
        nodes,
        entries,
        packets,
    };
    sum_up(alloc, told, &ring(rt, work)?, nodes, entries)
}

// What a ring's book has.
fn sum_up(
    alloc: Global,
    told: &mut Told,
    book: &SmallBook,
    nodes: u32,
    count: u32,
) -> anyhow::Result<()> {
    let words = format!(in alloc; "{} entries", book.entries().len())?;
    told.line(words.as_str())?;
    told.line(if is_in_order(book, nodes, count) {
        "each node's in order"
    } else {
        "not in order"
    })?;
    told.line(if is_fetched_once(alloc, book)? {
        "each packet fetched once"
    } else {
        "not each packet once"
    })?;
    Ok(())
}
