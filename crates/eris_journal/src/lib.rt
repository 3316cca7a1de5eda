//! A book that threads take in turn, and what holds of it at the end: of each node it has just what
//! the node's seat knows, each entry once and in the seat's order. docs/JOURNAL.md tells how.
//!
//! # What its calls ask
//!
//! A book's `fetch` and `add` ask that the book is legal, `add` also that the entry is a step of
//! the node after its own entries and fetched packets in the book. `Journal::start` asks for at
//! least one node and a legal book with no refused entry, which names only nodes below that number.
//! All other calls of a journal ask that the hand and the seat are of this journal; `split`, that
//! fewer seats were split than there are nodes; `append`, that the entry is a step of the node
//! after what its seat knows; `close`, that each seat that was split was joined.
#![tactic(auto)]

mod add_fault;
mod fetched;
mod hand;
mod journal;
mod law;
mod laws;
mod legal;
mod seat;
mod views;

pub use add_fault::AddFault;
pub use fetched::Fetched;
pub use hand::Hand;
pub use journal::Journal;
pub use laws::{pending_is_the_least, weights_add_up};
pub use legal::Legal;
pub use seat::NodeSeat;
pub use views::{Joined, Known, Part, View};
