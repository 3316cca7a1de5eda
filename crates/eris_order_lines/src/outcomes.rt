ghost use Rattle.std.specs.Prelude.{◌≡◌};
ghost use Rattle.eris_locks.specs.States.{is_conclusory};
ghost use Rattle.eris_order_lines.specs.Noted.{outcome_by_first};

use eris_audit::Outcome;
use eris_txn::Body;

/// Whether the body is the second half of a general transaction.
pub fn is_conclusory(body: &Body) -> bool
    ensures { result ≡ is_conclusory body.now }
{
    match body {
        Body::Independent(_) | Body::Prelim(_) => false,
        Body::Commit(_, _) | Body::Abort(_) => true,
    }
}

/// What became of the transaction of a first packet with this body: whether a conclusory packet of its id stands
/// before it, and what the first one of all says.
pub fn outcome_of(body: &Body, decided: bool, first: Outcome) -> Outcome
    ensures { result ≡ outcome_by_first body.now decided first }
{
    match body {
        Body::Independent(_) => Outcome::Done,
        Body::Prelim(_) => { if decided { Outcome::Aborted } else { first } }
        Body::Commit(_, _) | Body::Abort(_) => Outcome::Aborted,
    }
}
