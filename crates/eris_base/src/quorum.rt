ghost use Rattle.std.specs.Prelude.{◌≡◌, ◌≤◌, length};
ghost use Rattle.eris_base.specs.Quorums.{learner_of, has_replica, different_replicas, are_quorum};

use crate::ids::{ReplicaId, View};

/// The designated learner of a view among 2f+1 replicas: the one whose number is the view modulo 2f+1.
/// It needs an `f` of at most 3, and takes no memory.
pub fn learner(view: View, f: u8) -> ReplicaId
    requires { f ≤ 3 }
    ensures { result ≡ learner_of view f }
{
    ReplicaId((view.0 % (2 * f as u32 + 1)) as u8)
}

/// Whether at least f+1 different replicas are listed. It takes no memory.
pub fn is_quorum(replicas: &[ReplicaId], f: u8) -> bool
    ensures { result ≡ are_quorum replicas.now f }
{
    count_different(replicas) > f as usize
}

fn count_different(replicas: &[ReplicaId]) -> usize
    ensures exact { result ≡ different_replicas replicas.now }
    ensures few { result ≤ length replicas.now }
{
    let mut rest = replicas;
    let mut count = 0;
    while let [first, more @ ..] = rest {
        if !lists(more, *first) {
            count += 1;
        }
        rest = more;
    }
    count
}

fn lists(replicas: &[ReplicaId], replica: ReplicaId) -> bool
    ensures { result ≡ has_replica replicas.now replica }
{
    replicas.iter().any(|other| replica == *other)
}
