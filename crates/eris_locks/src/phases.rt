//! The phases of bodies.
ghost use Rattle.std.specs.Prelude.{◌≡◌};
ghost use Rattle.eris_locks.specs.States.{phase_of, same_phase};

use eris_base::Phase;
use eris_txn::Body;

/// The phase of a transaction that the body belongs to.
pub fn phase_of(body: &Body) -> Phase
    ensures { result ≡ phase_of body.now }
{
    match body {
        Body::Independent(_) => Phase::Whole,
        Body::Prelim(_) => Phase::Prelim,
        Body::Commit(_, _) | Body::Abort(_) => Phase::Conclude,
    }
}

/// Whether the two phases are one.
pub fn is_same_phase(some: Phase, other: Phase) -> bool
    ensures { result ≡ same_phase some other }
{
    match (some, other) {
        (Phase::Whole, Phase::Whole) => true,
        (Phase::Prelim, Phase::Prelim) => true,
        (Phase::Conclude, Phase::Conclude) => true,
        _ => false,
    }
}
