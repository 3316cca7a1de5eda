ghost use Rattle.std.specs.Prelude.{◌≡◌, ℕ, true, List};
ghost use Rattle.eris_base.specs.declared.ids.Epoch.{Epoch};
ghost use Rattle.eris_base.specs.declared.ids.ShardId.{ShardId};
ghost use Rattle.eris_base.specs.Each.{Each};
ghost use Rattle.eris_txn.specs.declared.packet.Packet.{Packet};
ghost use Rattle.eris_locks.specs.Shards.{names_shard};
ghost use Rattle.eris_rules.specs.ReplicaAnswers.{late_answers, answer_after};
ghost use Rattle.eris_law_range.specs.Answering.{PacketIsRight, DoneFits, KeptFits};
ghost use Rattle.eris_base.specs.ConfigLimits.{IsConfig};
ghost use Rattle.eris_codec.specs.Fields as f;
ghost use Rattle.eris_rules.specs.declared.replica_input.ReplicaInput.{ReplicaInput};
ghost use Rattle.eris_rules.specs.ReplicaStates.{Identity, ReplicaState, first_state};
ghost use Rattle.eris_rules.specs.Replicas.{replica_step};
ghost use Rattle.eris_law_range.specs.Fitting.{ReplicaFits, ReplicaInputFits, ReplicaStepFits};

/// Where each packet of a log is in its ranges and names exactly its participants, so that a shard has something to
/// answer to each packet that names it, the late answers over the log are in their ranges, and so is what is answered
/// to one more such packet at its place. The call does nothing; its contract is the law.
pub fn answers_are_in_range()
    ensures late { (shard : ShardId) (epoch : Epoch) (log : List Packet) (number : ℕ) → Each PacketIsRight log → Each DoneFits (late_answers shard epoch log number) }
    ensures prompt { (shard : ShardId) (log : List Packet) (packet : Packet) → Each PacketIsRight log → PacketIsRight packet → names_shard shard packet ≡ true → KeptFits (answer_after shard log packet) }
{}

/// A replica at the start has nothing that is out of its range. The call does nothing; its contract is the law.
pub fn first_state_is_in_range()
    ensures { (me : Identity) → IsConfig me.config → f.shard.fits me.shard ≡ true → f.replica.fits me.replica ≡ true → ReplicaFits me (first_state me.shard) }
{}

/// Where what a replica keeps and the message that it gets are in their ranges, so are what it keeps after its step
/// and what it sends. Only the counts of lists of packets and places are left open. The call does nothing; its
/// contract is the law.
pub fn replica_stays_in_range()
    ensures { (me : Identity) (state : ReplicaState) (input : ReplicaInput) → ReplicaFits me state → ReplicaInputFits input → ReplicaStepFits me (replica_step me state input) }
{}
