ghost use Rattle.std.specs.Prelude.{◌≡◌, ◌∷◌, ◌<◌, ◌≤◌, IsTrue, OnOk, OnErr, IfOk, IfErr, length, insert, set};
ghost use Rattle.std.specs.List.{list_any};
ghost use Rattle.eris_base.specs.Quorums.{same_replica, different_replicas};
ghost use Rattle.eris_log.specs.PartValues.{PartValue};
ghost use Rattle.eris_view.specs.ViewTallies.{with_part, replicas_of, union_of};
ghost use Rattle.eris_view.specs.ViewTallyFacts.{replicas_ascend, AreOfShard, IsUnionBegun};

use eris_base::{NoMemory, ReplicaId, View};
use eris_log::{Merge, Part};
use std::alloc::Global;
use std::marker::Model;

/// The parts that a replica noted on its way into a view: of each replica the last one that it sent.
#[derive(Debug, Drop)]
pub struct ViewTally {
    view: View,
    f: u8,
    noted: Vec<(ReplicaId, Part)>,
}

impl Model for ViewTally {
    ghost use Rattle.eris_view.specs.ViewTallies.{ViewTallyValue};
    ghost use Rattle.eris_view.specs.ViewTallyFacts.{IsViewTally};

    ghost Value = { ViewTallyValue };

    ghost view = { λ t. record { view = t.view; f = t.f; noted = t.noted.items } };

    ghost invariant = { λ t. IsViewTally (record { view = t.view; f = t.f; noted = t.noted.items }) };
}

impl ViewTally {
    ghost use Rattle.eris_view.specs.ViewTallies.{no_parts, note_part, is_ready};

    /// The tally of a view that notes no part yet, in a shard that outlives `f` faults. It takes no
    /// memory.
    #[tactic(auto, unfolding(crate::specs::ViewTallies::no_parts))]
    pub fn new(alloc: Global, view: View, f: u8) -> ViewTally
        ensures { result ≡ no_parts view f }
    {
        ViewTally {
            view,
            f,
            noted: Vec::new(alloc),
        }
    }

    /// The view. It takes no memory.
    pub fn view(&self) -> View
        ensures { result ≡ self.now.view }
    {
        self.view
    }

    /// Notes the replica's part, in place of an earlier one of that replica.
    ///
    /// # Errors
    ///
    /// After [`NoMemory`] the tally is as before.
    #[tactic(auto, unfolding(crate::specs::ViewTallies::note_part))]
    pub fn note(&mut self, replica: ReplicaId, part: Part) -> Result<(), NoMemory>
        ensures ok { OnOk result (self.new ≡ note_part self.old replica part) }
        ensures err { OnErr result (self.new ≡ self.old) }
    {
        put(&mut self.noted, replica, part)
    }

    /// Whether the replicas whose parts are noted are, with this one, at least f+1 different ones. It
    /// takes no memory.
    #[tactic(auto, unfolding(crate::specs::ViewTallies::is_ready))]
    pub fn ready(&self, own: ReplicaId) -> bool
        ensures { result ≡ is_ready self.now own }
    {
        count_with(self.noted.as_slice(), own) > self.f as usize
    }

    /// Merges the noted parts into this one, by replica ascending. They are of its epoch and shard.
    ///
    /// # Errors
    ///
    /// After [`NoMemory`] the part lies between: it has the first of the noted parts, but not all.
    pub fn union(&self, part: &mut Part) -> Result<(), NoMemory>
        requires { AreOfShard part.old self.now.noted }
        ensures ok { OnOk result (part.new ≡ union_of self.now.noted part.old) }
        ensures err { OnErr result (IsUnionBegun self.now.noted part.old part.new) }
    {
        merge_all(self.noted.as_slice(), part)
    }
}

/// Notes the part in place of what its replica had. After [`NoMemory`] all is as before.
fn put(noted: &mut Vec<(ReplicaId, Part)>, replica: ReplicaId, part: Part) -> Result<(), NoMemory>
    ensures ok { OnOk result (noted.new.items ≡ with_part noted.old.items replica part) }
    ensures err { OnErr result (noted.new.items ≡ noted.old.items) }
    ensures ascend { IsTrue (replicas_ascend noted.old.items) → IsTrue (replicas_ascend noted.new.items) }
{
    match place_of(noted.as_slice(), replica) {
        Ok(at) => noted[at] = (replica, part),
        Err(at) => noted.insert(at, (replica, part))?,
    }
    Ok(())
}

/// Where the replica's part stands, or where it would.
fn place_of(noted: &[(ReplicaId, Part)], replica: ReplicaId) -> Result<usize, usize>
    ensures found { IfOk result (λ at. (at < length noted.now) × ((part : PartValue) → with_part noted.now replica part ≡ set noted.now at (replica, part))) }
    ensures free { IfErr result (λ at. (at ≤ length noted.now) × ((part : PartValue) → with_part noted.now replica part ≡ insert noted.now at (replica, part))) }
{
    for at in 0..noted.len() {
        let other = noted[at].0;
        if replica < other {
            return Err(at);
        }
        if replica == other {
            return Ok(at);
        }
    }
    Err(noted.len())
}

/// How many different replicas there are with this one.
#[tactic(auto, using(crate::proofs::Replicas::count_rules))]
fn count_with(noted: &[(ReplicaId, Part)], own: ReplicaId) -> usize
    requires { IsTrue (replicas_ascend noted.now) }
    ensures { result ≡ different_replicas (own ∷ replicas_of noted.now) }
{
    if has_part(noted, own) {
        noted.len()
    } else {
        noted.len() + 1
    }
}

fn has_part(noted: &[(ReplicaId, Part)], replica: ReplicaId) -> bool
    ensures { result ≡ list_any (λ one. same_replica replica one.0) noted.now }
{
    noted.iter().any(|one| replica == one.0)
}

fn merge_all(noted: &[(ReplicaId, Part)], part: &mut Part) -> Result<(), NoMemory>
    requires { AreOfShard part.old noted.now }
    ensures ok { OnOk result (part.new ≡ union_of noted.now part.old) }
    ensures err { OnErr result (IsUnionBegun noted.now part.old part.new) }
{
    for one in noted {
        part.merge(&one.1)?;
    }
    Ok(())
}
