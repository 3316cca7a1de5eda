ghost use Rattle.std.specs.Prelude.{◌≡◌, ◌↔◌, not, [], filter, OnOk, OnErr, IsTrue};
ghost use Rattle.eris_log.specs.Places.{same_place};
ghost use Rattle.eris_drop.specs.Notes.{has_note, note, forget, decided, IsDecided};

use crate::drop_note::{DropNote, is_same, is_same_place};
use crate::quorums::is_decided;
use eris_base::{Config, NoMemory, Place, ReplicaId, Row, ShardId, View};
use std::alloc::Global;
use std::marker::Model;
use std::mem;

/// The temporary drops that the coordinator heard of: which replica of which shard dropped which place, in
/// which view. Contracts see it as a config and a list of notes, each once, in the order in which they came.
#[derive(Debug, Drop)]
pub struct DropCount {
    alloc: Global,
    config: Config,
    notes: Row<DropNote>,
}

impl Model for DropCount {
    ghost use Rattle.eris_drop.specs.DropCounts.{DropCountValue};

    ghost Value = { DropCountValue };

    ghost view = { λ c. record { config = c.config; notes = c.notes } };
}

impl DropCount {
    /// The count that has no note. It takes no memory.
    pub fn new(alloc: Global, config: Config) -> DropCount
        ensures { result ≡ record { config = config; notes = [] } }
    {
        DropCount {
            alloc,
            config,
            notes: Row::new(alloc),
        }
    }

    /// Keeps the note that this replica of the shard dropped the place for a time, in this view. A repeated
    /// note changes nothing. A replica that isn't one of the shard's 2f+1 is never counted.
    ///
    /// # Errors
    ///
    /// After [`NoMemory`] the count is as before.
    #[tactic(auto, unfolding(crate::specs::Notes::note))]
    pub fn note(
        &mut self,
        place: Place,
        shard: ShardId,
        replica: ReplicaId,
        view: View,
    ) -> Result<(), NoMemory>
        ensures ok { OnOk result (self.new ≡ record self.old {
          notes = note self.old.notes (record { place = place; shard = shard; replica = replica; view = view });
        }) }
        ensures err { OnErr result (self.new ≡ self.old) }
    {
        let note = DropNote {
            place,
            shard,
            replica,
            view,
        };
        if has_note(self.notes.as_slice(), &note) {
            return Ok(());
        }
        self.notes.push(note)
    }

    /// Whether the place is decided: for every shard there is a view with notes of f+1 different replicas
    /// of it, that view's learner among them. It takes no memory.
    pub fn decided(&self, place: Place) -> bool
        ensures exact { result ≡ decided self.now.config self.now.notes place }
        ensures meaning { IsTrue result ↔ IsDecided self.now.config self.now.notes place }
    {
        is_decided(&self.config, self.notes.as_slice(), place)
    }

    /// Removes the notes of the place. It takes no memory.
    pub fn forget(&mut self, place: Place)
        ensures { self.new ≡ record self.old { notes = forget self.old.notes place } }
    {
        let mut notes = mem::replace(&mut self.notes, Row::new(self.alloc)).into_vec();
        remove_all(&mut notes, place);
        self.notes = Row::from_vec(notes);
    }
}

#[tactic(auto, unfolding(crate::specs::Notes::has_note))]
fn has_note(notes: &[DropNote], note: &DropNote) -> bool
    ensures { result ≡ has_note notes.now note.now }
{
    notes.iter().any(|other| is_same(other, note))
}

#[tactic(auto, unfolding(crate::specs::Notes::forget))]
fn remove_all(notes: &mut Vec<DropNote>, place: Place)
    ensures { notes.new.items ≡ forget notes.old.items place }
{
    notes.retain(|other| !is_same_place(other.place, place));
}
