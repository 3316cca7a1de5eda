ghost use Rattle.std.specs.Prelude.{◌≡◌, ◌≤◌, [], length};
ghost use Rattle.eris_journal.specs.Packets.{sent};
ghost use Rattle.eris_journal.specs.Parts.{NamesNodes};
ghost use Rattle.eris_journal.specs.Seats.{IsSeatOf, IsHandOf};
ghost use Rattle.eris_try_journal.specs.Bytes.{sends};

use crate::book::SmallBook;
use eris_base::NoMemory;
use eris_journal::{Hand, Journal, NodeSeat};
use std::alloc::Global;

/// A journal of two nodes, with its hand and both seats.
#[derive(Drop)]
pub(crate) struct Pair {
    pub(crate) journal: Journal<SmallBook>,
    pub(crate) hand: Hand<SmallBook>,
    pub(crate) first: NodeSeat<SmallBook>,
    pub(crate) second: NodeSeat<SmallBook>,
    pub(crate) ghost hand_of: { IsHandOf journal hand × (hand.count ≡ 2) × (hand.nodes ≡ 2) × (hand.kept ≡ []) },
    pub(crate) ghost first_of: { IsSeatOf journal first × (first.node ≡ 0) },
    pub(crate) ghost second_of: { IsSeatOf journal second × (second.node ≡ 1) },
}

impl Pair {
    /// A journal of this book.
    pub(crate) fn of(alloc: Global, book: SmallBook) -> Result<Pair, NoMemory>
        requires legal { length (sent sends book.entries) ≤ book.most }
        requires refused { book.refused ≡ None }
        requires names { NamesNodes (λ b. b.entries) (λ b. b.fetches) (λ b. b.refused) 2 book }
    {
        let (journal, mut hand) = Journal::start(alloc, book, 2)?;
        let first = journal.split(&mut hand);
        let second = journal.split(&mut hand);
        Ok(Pair {
            journal,
            hand,
            first,
            second,
        })
    }

    /// The book, after both seats were joined.
    pub(crate) fn close(self) -> SmallBook
        ensures legal { length (sent sends result.entries) ≤ result.most }
        ensures names { NamesNodes (λ b. b.entries) (λ b. b.fetches) (λ b. b.refused) 2 result }
    {
        let Pair {
            journal,
            mut hand,
            first,
            second,
        } = self;
        journal.join(&mut hand, first);
        journal.join(&mut hand, second);
        journal.close(hand)
    }
}
