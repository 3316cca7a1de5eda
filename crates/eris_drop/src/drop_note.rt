ghost use Rattle.std.specs.Prelude.{◌≡◌};
ghost use Rattle.eris_log.specs.Places.{same_place};
ghost use Rattle.eris_drop.specs.Notes.{same_note};

use eris_base::{Place, ReplicaId, ShardId, View};

/// One replica of one shard dropped a place for a time, in this view of its shard.
#[derive(Clone, Copy, Debug, PartialEq, Eq)]
pub struct DropNote {
    pub place: Place,
    pub shard: ShardId,
    pub replica: ReplicaId,
    pub view: View,
}

/// Whether the two are one note.
#[tactic(auto, unfolding(crate::specs::Notes::same_note))]
pub fn is_same(some: &DropNote, other: &DropNote) -> bool
    ensures { result ≡ same_note some.now other.now }
{
    is_same_place(some.place, other.place)
        && some.shard == other.shard
        && some.replica == other.replica
        && some.view == other.view
}

/// Whether the two are one place.
#[tactic(auto, unfolding(eris_log::specs::Places::same_place))]
pub fn is_same_place(some: Place, other: Place) -> bool
    ensures { result ≡ same_place some other }
{
    some.epoch == other.epoch && some.shard == other.shard && some.number == other.number
}
