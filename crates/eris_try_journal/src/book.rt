ghost use Rattle.std.specs.Prelude.{◌≡◌, ◌≤◌, ◌<◌, ◌^◌, ℕ, [], ◌∷◌, length, None, IfOk};
ghost use Rattle.eris_journal.specs.Packets.{sent, pending};
ghost use Rattle.eris_try_journal.specs.Bytes.{sends, limit, GoesBelow, IsNext};

use eris_base::{NoMemory, Row};
use eris_journal::{AddFault, Fetched, Legal};
use std::alloc::Global;
use std::marker::Model;

/// The nodes that packets may go to.
pub(crate) const NODES: u32 = 16;

/// An entry: pairs of a node and a byte, each of which sends that node one packet of that byte.
pub(crate) type Entry = Row<(u32, u8)>;

/// A small book with a limit of packets. Contracts see the limit, the entries, the fetched packets,
/// and the refused entry.
#[derive(Drop)]
pub(crate) struct SmallBook {
    alloc: Global,
    most: u32,
    entries: Vec<(u32, Row<(u32, u8)>)>,
    pairs: Vec<(u32, u8)>,
    fetches: Vec<(u32, Fetched)>,
    cursors: [u32; 16],
    refused: Option<(u32, (Row<(u32, u8)>, AddFault))>,
}

impl Model for SmallBook {
    ghost use Rattle.eris_try_journal.specs.SmallBooks.{SmallBookValue, IsIndex};

    ghost Value = { SmallBookValue };

    ghost view = { λ b. record { most = b.most; entries = b.entries.items; fetches = b.fetches.items; refused = b.refused } };

    ghost invariant = { λ b. IsIndex b.entries.items b.fetches.items b.pairs.items b.cursors };
}

impl SmallBook {
    /// The empty book that takes this many packets.
    pub(crate) fn new(alloc: Global, most: u32) -> SmallBook
        ensures { result ≡ record { most = most; entries = []; fetches = []; refused = None } }
    {
        SmallBook {
            alloc,
            most,
            entries: Vec::new(alloc),
            pairs: Vec::new(alloc),
            fetches: Vec::new(alloc),
            cursors: [0; 16],
            refused: None,
        }
    }

    /// Its entries, each with its node.
    pub(crate) fn entries(&self) -> &[(u32, Row<(u32, u8)>)]
        ensures { result.now ≡ self.now.entries }
    {
        self.entries.as_slice()
    }

    /// The fetched packets, each with its node.
    pub(crate) fn fetches(&self) -> &[(u32, Fetched)]
        ensures { result.now ≡ self.now.fetches }
    {
        self.fetches.as_slice()
    }

    /// The refused entry with its node and its cause, if there is one.
    pub(crate) fn refused(&self) -> &Option<(u32, (Row<(u32, u8)>, AddFault))>
        ensures { result.now ≡ self.now.refused }
    {
        &self.refused
    }
}

impl Legal for SmallBook {
    type Entry = Row<(u32, u8)>;

    ghost entries = { λ b. b.entries };

    ghost fetches = { λ b. b.fetches };

    ghost refused = { λ b. b.refused };

    ghost legal = { λ b. length (sent sends b.entries) ≤ b.most };

    ghost sends = { sends };

    ghost is_step = { λ node entries fetches entry. GoesBelow 16 entry };

    ghost limit = { λ b node entry. limit b.most b.entries entry };

    fn pending(&self, node: u32) -> Option<u32> {
        let pairs = self.pairs.as_slice();
        if node >= NODES {
            return None;
        }
        next(pairs, node, self.cursors[node as usize])
    }

    fn fetch(&mut self, node: u32) -> Result<Option<Fetched>, NoMemory> {
        let Some(number) = self.pending(node) else {
            self.pass(node);
            return Ok(None);
        };
        let byte = self.pairs[number as usize].1;
        let message = one_byte(self.alloc, byte)?;
        let kept = one_byte(self.alloc, byte)?;
        let packet = Fetched {
            number,
            message: kept,
        };
        self.fetches.push((node, packet))?;
        self.cursors[node as usize] = number + 1;
        Ok(Some(Fetched { number, message }))
    }

    fn add(&mut self, node: u32, entry: Row<(u32, u8)>) -> Result<(), AddFault> {
        if let Some((_, (_, fault))) = &self.refused {
            return Err(*fault);
        }
        if entry.len() > self.most as usize - self.pairs.len() {
            self.refused = Some((node, (entry, AddFault::Packets)));
            return Err(AddFault::Packets);
        }
        if self.entries.reserve(1).is_err() {
            return Err(AddFault::NoMemory);
        }
        if self.pairs.extend_from_slice(entry.as_slice()).is_err() {
            return Err(AddFault::NoMemory);
        }
        self.entries.push_reserved((node, entry));
        Ok(())
    }
}

impl SmallBook {
    // Nothing is pending for the node, so its cursor goes to the end.
    fn pass(&mut self, node: u32)
        requires { pending sends self.old.entries self.old.fetches node ≡ None }
        ensures { self.new ≡ self.old }
    {
        if node < NODES {
            self.cursors[node as usize] = self.pairs.len() as u32;
        }
    }
}

// The place of the next packet for the node, from a place on.
fn next(pairs: &[(u32, u8)], node: u32, from: u32) -> Option<u32>
    requires { length pairs.now < 2 ^ 32 }
    ensures { IsNext pairs.now node from result }
{
    let mut place = from as usize;
    while place < pairs.len() {
        if pairs[place].0 == node {
            return Some(place as u32);
        }
        place += 1;
    }
    None
}

fn one_byte(alloc: Global, byte: u8) -> Result<Row<u8>, NoMemory>
    ensures { IfOk result (λ row. row ≡ byte ∷ []) }
{
    let mut row = Row::new(alloc);
    row.push(byte)?;
    Ok(row)
}
