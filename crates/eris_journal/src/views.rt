//! What the threads know of the book. No value of these types is made: they are what clauses and
//! the rule speak of.

use crate::add_fault::AddFault;
use crate::fetched::Fetched;
use std::collections::LinkedList;

/// What a book has of one node: its entries, its fetched packets, and the refused entry where it is
/// the node's.
pub struct Part<E> {
    /// The entries, in order.
    pub entries: LinkedList<E>,
    /// The fetched packets, in order.
    pub fetches: LinkedList<Fetched>,
    /// The refused entry with its cause, where it is the node's.
    pub refused: Option<(E, AddFault)>,
}

/// What a node's seat knows.
pub struct Known<L, X> {
    /// The node.
    pub node: u64,
    /// What the book has of the node.
    pub part: X,
    /// Whether one of its entries met a limit.
    pub full: bool,
    /// How often the seat took the turn.
    pub turns: u64,
    /// The book that it found at its last turn.
    pub noted: Option<L>,
    /// The book at the journal's start.
    pub start: L,
}

/// What a seat that was joined has left.
pub struct Joined<X> {
    /// The node.
    pub node: u64,
    /// What the book has of the node.
    pub part: X,
    /// Whether one of its entries met a limit.
    pub full: bool,
}

/// What a seat of the table knows.
pub enum View<L, X> {
    /// Nothing: the seat was joined.
    Spent,
    /// The hand: how many seats were split, what the joined ones left, and the book at the start.
    Hand(u64, LinkedList<Joined<X>>, L),
    /// A node's seat without the turn.
    Free(Known<L, X>),
    /// A node's seat with the turn, and the book that it found.
    Holding(Known<L, X>, L),
}
