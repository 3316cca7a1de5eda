//! The rule of a journal's table, and what each step on it tells.

use crate::legal::Legal;
use crate::views::{Part, View};
use atomic_table::{Join, Play, Split, TableRule};
use std::marker::PhantomData;
use std::snapshot::Snapshot;

/// The rule. Its key is the book at the start.
pub struct Law<L> {
    book: PhantomData<L>,
}

impl<L: Legal> TableRule<Option<L>, View<L, Part<L::Entry>>, Snapshot<L>> for Law<L> {
    ghost use Rattle.std.specs.Prelude.{[]};
    ghost use Rattle.eris_journal.specs.Parts.{part_of, Grows, IsStuck};
    ghost use Rattle.eris_journal.specs.Turns.{Ruled, hand_view};

    ghost holds = { λ key. Ruled L.legal (Grows L.entries L.fetches L.refused) (part_of L.entries L.fetches L.refused) (IsStuck L.refused) key.value };

    ghost first = { λ key. hand_view 0 [] key.value };
}

/// Takes the turn where it is free.
pub struct Takes;

impl<L: Legal> Play<Option<L>, View<L, Part<L::Entry>>> for Takes {
    ghost use Rattle.eris_journal.specs.Parts.{part_of, Grows, IsStuck};
    ghost use Rattle.eris_journal.specs.Turns.{Taken};

    ghost then = { Taken L.legal (Grows L.entries L.fetches L.refused) (part_of L.entries L.fetches L.refused) (IsStuck L.refused) };
}

/// Releases the turn.
pub struct Releases;

impl<L: Legal> Play<Option<L>, View<L, Part<L::Entry>>> for Releases {
    ghost use Rattle.std.specs.Prelude.{false};
    ghost use Rattle.eris_journal.specs.Parts.{part_of};
    ghost use Rattle.eris_journal.specs.Turns.{Released};

    ghost then = { Released (part_of L.entries L.fetches L.refused) false };
}

/// Releases the turn, and the seat says from now on that an entry met a limit.
pub struct ReleasesFull;

impl<L: Legal> Play<Option<L>, View<L, Part<L::Entry>>> for ReleasesFull {
    ghost use Rattle.std.specs.Prelude.{true};
    ghost use Rattle.eris_journal.specs.Parts.{part_of};
    ghost use Rattle.eris_journal.specs.Turns.{Released};

    ghost then = { Released (part_of L.entries L.fetches L.refused) true };
}

/// How seats are split from the hand and joined with it.
pub struct Deals<L> {
    book: PhantomData<L>,
}

impl<L: Legal> Split<View<L, Part<L::Entry>>> for Deals<L> {
    ghost use Rattle.eris_journal.specs.Parts.{part_of};
    ghost use Rattle.eris_journal.specs.Turns.{hand_after, seat_after};

    ghost left = { hand_after };

    ghost right = { seat_after (part_of L.entries L.fetches L.refused) };
}

impl<L: Legal> Join<View<L, Part<L::Entry>>> for Deals<L> {
    ghost use Rattle.eris_journal.specs.Turns.{hand_with, spent};

    ghost both = { hand_with };

    ghost spent = { spent };
}
