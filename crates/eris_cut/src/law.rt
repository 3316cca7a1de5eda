ghost use Rattle.std.specs.Prelude.{◌≡◌, ℕ, List};
ghost use Rattle.eris_txn.specs.declared.packet.Packet.{Packet};
ghost use Rattle.eris_cut.specs.Cuts.{IsClosed, IsGreatest, greater, zeros};

/// Of the closed cuts of the shards' lists one is greatest, on every shard, and no other. For the cut that takes
/// nothing is closed, and of two closed cuts the greater, shard by shard, is closed too. The call does nothing; its
/// contract is the law.
pub fn one_cut_is_greatest()
    ensures zeros { (logs : List (List Packet)) → IsClosed logs (zeros logs) }
    ensures greater { (logs : List (List Packet)) (some others : List ℕ) → IsClosed logs some → IsClosed logs others → IsClosed logs (greater some others) }
    ensures there { (logs : List (List Packet)) → (lengths : List ℕ) × IsGreatest logs lengths }
    ensures one { (logs : List (List Packet)) (some others : List ℕ) → IsGreatest logs some → IsGreatest logs others → some ≡ others }
{}
