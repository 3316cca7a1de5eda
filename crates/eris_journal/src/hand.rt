use crate::legal::Legal;
use crate::views::{Part, View};
use atomic_table::Seat;
use std::marker::Model;
use std::snapshot::Snapshot;

/// The right to split seats from a journal, to join them, and to close it. Contracts see how many
/// nodes there are, how many seats were split, and what the joined ones left.
#[derive(Drop)]
pub struct Hand<L: Legal> {
    pub(crate) nodes: u32,
    pub(crate) count: u32,
    pub(crate) start: Snapshot<L>,
    pub(crate) seat: Seat<Option<L>, View<L, Part<L::Entry>>>,
}

impl<L: Legal> Model for Hand<L> {
    ghost use Rattle.std.specs.Prelude.{◌≡◌, ◌≤◌, List, [], None};
    ghost use Rattle.eris_journal.specs.Parts.{NamesNodes};
    ghost use Rattle.eris_journal.specs.Seats.{HandValue, kept_by};
    ghost use Rattle.eris_journal.specs.Turns.{hand_view};
    ghost use Rattle.eris_journal.specs.declared.views.Joined.{Joined};
    ghost use Rattle.eris_journal.specs.declared.views.Part.{Part};

    ghost Value = { HandValue L L.Entry };

    ghost view = { λ h. record { table = h.seat.table_id; start = h.start.value; nodes = h.nodes; count = h.count; kept = kept_by h.seat.me.0 } };

    ghost invariant = { λ h. (kept : List (Joined (Part L.Entry))) × (h.seat.me ≡ (hand_view h.count kept h.start.value, [])) × (h.count ≤ h.nodes) × (L.refused h.start.value ≡ None) × NamesNodes L.entries L.fetches L.refused h.nodes h.start.value };
}
