ghost use Rattle.std.specs.Prelude.{◌≡◌, ◌≤◌, ◌&&◌, ◌↔◌, not, length, IsTrue};
ghost use Rattle.std.specs.List.{list_all, range_with_len};
ghost use Rattle.eris_base.specs.Quorums.{has_replica, different_replicas};
ghost use Rattle.eris_drop.specs.Notes.{is_noted_in, noted_replicas, is_drop_quorum, has_drop_quorum, decided, IsDecided};

use crate::drop_note::{DropNote, is_same_place};
use eris_base::{Config, Place, ReplicaId, ShardId, View, learner};

/// Whether the place is decided.
#[tactic(auto, unfolding(crate::specs::Notes::decided))]
pub fn is_decided(config: &Config, notes: &[DropNote], place: Place) -> bool
    ensures exact { result ≡ decided config.now notes.now place }
    ensures meaning { IsTrue result ↔ IsDecided config.now notes.now place }
{
    has_all_quorums(config.shards(), config.f(), notes, place)
}

/// Whether every shard has a quorum of notes of the place.
fn has_all_quorums(shards: u8, f: u8, notes: &[DropNote], place: Place) -> bool
    requires { f ≤ 3 }
    ensures { result ≡ list_all (λ number. has_drop_quorum f notes.now place (record { 0 = number })) (range_with_len 0 shards) }
{
    (0..shards).all(|shard| has_drop_quorum(f, notes, place, ShardId(shard)))
}

/// Whether there is a view in which f+1 different replicas of the shard noted the place, the view's
/// learner among them.
#[tactic(auto, unfolding(crate::specs::Notes::has_drop_quorum))]
fn has_drop_quorum(f: u8, notes: &[DropNote], place: Place, shard: ShardId) -> bool
    requires { f ≤ 3 }
    ensures { result ≡ has_drop_quorum f notes.now place shard }
{
    notes.iter().any(|note| is_noted_in(f, place, shard, note.view, note)
        && is_drop_quorum(f, notes, place, shard, note.view))
}

#[tactic(auto, unfolding(crate::specs::Notes::is_drop_quorum))]
fn is_drop_quorum(f: u8, notes: &[DropNote], place: Place, shard: ShardId, view: View) -> bool
    requires { f ≤ 3 }
    ensures { result ≡ is_drop_quorum f notes.now place shard view }
{
    has_noted(f, notes, place, shard, view, learner(view, f))
        && count_noted(f, notes, place, shard, view) > f as usize
}

/// How many different replicas of the shard noted the place in the view.
fn count_noted(f: u8, notes: &[DropNote], place: Place, shard: ShardId, view: View) -> usize
    ensures exact { result ≡ different_replicas (noted_replicas f notes.now place shard view) }
    ensures few { result ≤ length notes.now }
{
    let mut rest = notes;
    let mut count = 0;
    while let [first, more @ ..] = rest {
        if is_last(f, more, place, shard, view, first) {
            count += 1;
        }
        rest = more;
    }
    count
}

/// Whether a replica of the shard noted the place in the view, and no later note says so.
fn is_last(
    f: u8,
    later: &[DropNote],
    place: Place,
    shard: ShardId,
    view: View,
    note: &DropNote,
) -> bool
    ensures { result ≡ (is_noted_in f place shard view note.now
        && not (has_replica (noted_replicas f later.now place shard view) note.now.replica)) }
{
    is_noted_in(f, place, shard, view, note)
        && !has_noted(f, later, place, shard, view, note.replica)
}

/// Whether this replica of the shard noted the place in the view.
fn has_noted(
    f: u8,
    notes: &[DropNote],
    place: Place,
    shard: ShardId,
    view: View,
    replica: ReplicaId,
) -> bool
    ensures { result ≡ has_replica (noted_replicas f notes.now place shard view) replica }
{
    notes
        .iter()
        .filter(|note| is_noted_in(f, place, shard, view, note))
        .map(|note| note.replica)
        .any(|other| replica == other)
}

#[tactic(auto, unfolding(crate::specs::Notes::is_noted_in))]
fn is_noted_in(f: u8, place: Place, shard: ShardId, view: View, note: &DropNote) -> bool
    ensures { result ≡ is_noted_in f place shard view note.now }
{
    is_same_place(note.place, place)
        && note.shard == shard
        && (note.replica.0 as u32) < 2 * f as u32 + 1
        && note.view == view
}
