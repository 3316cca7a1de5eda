//! What the words of the contracts come to.
ghost use Rattle.std.specs.Prelude.{◌≡◌, ℕ, List, map, MatchOption};
ghost use Rattle.eris_journal.specs.Lists.{own, NamesBelow, weigh, total};
ghost use Rattle.eris_journal.specs.Packets.{Packet, pending_from, IsNothing, IsLeast};
ghost use Rattle.eris_journal.specs.declared.fetched.Fetched.{Fetched};

/// A node's pending packet is the least of those that were sent to it and that it hasn't fetched;
/// where none is pending, it fetched all.
pub fn pending_is_the_least()
    ensures { (node : ℕ) (packets : List Packet) (fetched : List Fetched) → MatchOption (pending_from node 0 packets fetched) (IsNothing node packets fetched) (λ number. IsLeast node packets fetched number) }
{}

/// In a list that names only nodes below a number, the weight of all items is the sum of what each
/// node's own weigh.
pub fn weights_add_up()
    ensures { (weight : ℕ → ℕ) (xs : List (ℕ × ℕ)) (nodes : ℕ) → NamesBelow nodes xs → weigh weight (map (λ x. x.1) xs) ≡ total (λ node. weigh weight (own node xs)) nodes }
{}
