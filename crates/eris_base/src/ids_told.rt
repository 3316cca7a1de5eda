//! Which ids are one.
ghost use Rattle.std.specs.Prelude.{◌≡◌};
ghost use Rattle.eris_base.specs.TxnIds.{is_among, same_id};

use crate::ids::TxnId;

/// Whether the two ids are one. It takes no memory.
#[tactic(auto, unfolding(crate::specs::TxnIds::same_id))]
pub fn is_same_id(some: TxnId, other: TxnId) -> bool
    ensures { result ≡ same_id some other }
{
    some.client.0 == other.client.0 && some.number == other.number
}

/// Whether the id stands among these. It takes no memory.
pub fn is_among(id: TxnId, ids: &[TxnId]) -> bool
    ensures { result ≡ is_among id ids.now }
{
    ids.iter().any(|other| is_same_id(id, *other))
}
