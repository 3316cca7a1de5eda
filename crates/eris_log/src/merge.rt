ghost use Rattle.std.specs.Prelude.{◌≡◌, OnOk, OnErr};

use eris_base::NoMemory;

/// What can be joined with another of its kind. Joining is associative and idempotent, and the order
/// matters only where the two don't agree.
pub trait Merge: Drop {
    ghost merged: { Self → Self → Self };

    /// The facts that each value keeps.
    ghost is_valid: { Self → Type 0 };

    /// Whether the two are of one kind, so that one can be merged into the other.
    ghost can_merge: { Self → Self → Type 0 };

    /// Whether neither has what the other has otherwise.
    ghost agree: { Self → Self → Type 0 };

    /// Makes this value the union of both; where they don't agree, what this one has stays. After
    /// [`NoMemory`] it is as before.
    fn merge(&mut self, other: &Self) -> Result<(), NoMemory>
        requires { can_merge self.old other.now }
        ensures ok { OnOk result (self.new ≡ merged self.old other.now) }
        ensures err { OnErr result (self.new ≡ self.old) }
        ensures valid { is_valid self.old × is_valid other.now × is_valid self.new };

    ghost associative: { (a b c : Self) → is_valid a → is_valid b → is_valid c → merged (merged a b) c ≡ merged a (merged b c) };

    ghost idempotent: { (a : Self) → is_valid a → merged a a ≡ a };

    ghost commutative: { (a b : Self) → is_valid a → is_valid b → can_merge a b → agree a b → merged a b ≡ merged b a };

    ghost merges_again: { (a b c : Self) → can_merge a b → can_merge a c → can_merge (merged a b) c };
}
