use crate::legal::Legal;
use crate::views::{Part, View};
use atomic_table::Seat;
use std::marker::Model;

/// One node's seat at a journal, with which a thread takes its turns. Contracts see its node, what
/// the book has of the node, whether an entry of it met a limit, how often it took the turn, and
/// the book that it found there last.
#[derive(Drop)]
pub struct NodeSeat<L: Legal> {
    pub(crate) node: u32,
    pub(crate) seat: Seat<Option<L>, View<L, Part<L::Entry>>>,
}

impl<L: Legal> Model for NodeSeat<L> {
    ghost use Rattle.std.specs.Prelude.{◌≡◌, []};
    ghost use Rattle.eris_journal.specs.Seats.{SeatValue, seat_value};
    ghost use Rattle.eris_journal.specs.Turns.{free_view};
    ghost use Rattle.eris_journal.specs.declared.views.Known.{Known};
    ghost use Rattle.eris_journal.specs.declared.views.Part.{Part};

    ghost Value = { SeatValue L L.Entry };

    ghost view = { λ s. seat_value s.seat.table_id s.seat.me.0 };

    ghost invariant = { λ s. (known : Known L (Part L.Entry)) × (s.seat.me ≡ (free_view known, [])) × (known.node ≡ s.node) };
}
