ghost use Rattle.std.specs.Prelude.{◌≡◌, ◌≤◌, ◌<◌, ◌+◌, ◌*◌, ℕ, true, false, Some, List, [], ◌∷◌, ◌++◌, length};
ghost use Rattle.eris_base.specs.declared.ids.Node.TheVariants.{Client};
ghost use Rattle.eris_base.specs.declared.ids.ReplicaId.{ReplicaId};
ghost use Rattle.eris_base.specs.declared.ids.ShardId.{ShardId};
ghost use Rattle.eris_base.specs.declared.ids.TxnId.{TxnId};
ghost use Rattle.eris_base.specs.declared.stamp.Stamp.{Stamp};
ghost use Rattle.eris_base.specs.ConfigLimits.{ConfigValue};
ghost use Rattle.eris_base.specs.Each.{Each};
ghost use Rattle.eris_base.specs.Places.{number_in};
ghost use Rattle.eris_base.specs.Quorums.{learner_of, same_replica};
ghost use Rattle.eris_txn.specs.declared.answer.Answer.{Answer};
ghost use Rattle.eris_txn.specs.declared.history.HistoryEvent.{HistoryEvent};
ghost use Rattle.eris_txn.specs.declared.op.Op.{Op};
ghost use Rattle.eris_txn.specs.declared.packet.Packet.{Packet};
ghost use Rattle.eris_locks.specs.States.{phase_of};
ghost use Rattle.eris_msg.specs.declared.message.Message.{Message};
ghost use Rattle.eris_rules.specs.declared.replica_input.ReplicaInput.{ReplicaInput};
ghost use Rattle.eris_rules.specs.declared.transaction.Vote.{Vote};
ghost use Rattle.eris_rules.specs.InPlace.{is_in_place_at_replica};
ghost use Rattle.eris_rules.specs.ReplicaAnswers.{answer_after};
ghost use Rattle.eris_rules.specs.Replicas.{replica_step};
ghost use Rattle.eris_rules.specs.Votes.{is_counted};
ghost use Rattle.eris_law_calm.specs.Calm.{Submitted};
ghost use Rattle.eris_law_calm.specs.Crashes.{how_many_down, is_down};
ghost use Rattle.eris_law_calm.specs.Noted.{CountsAll, HasVote};
ghost use Rattle.eris_law_calm.specs.Packets.{HasItems, IsPacketOf, IsWhole, ops_on};
ghost use Rattle.eris_law_calm.specs.Received.{state_after};

/// A replica that got the packets of its shard in their order, in view 0 of epoch 0, takes the next one and speaks for it
/// at once: the learner by the store's answer, any other by a Vouch. Where all packets are of whole transactions, and an
/// id has one of them, the store does answer, and the answer has an item for each operation on the shard. The call does
/// nothing; its contract is the law.
pub fn replicas_speak_at_once()
    ensures vouch { (config : ConfigValue) (shard : ShardId) (replica : ReplicaId) (packets : List Packet) (packet : Packet) → number_in packet.stamp.places shard ≡ Some (length packets + 1) → packet.stamp.epoch ≡ record { 0 = 0 } → is_in_place_at_replica config (Message.Txn packet) ≡ true → same_replica replica (learner_of (record { 0 = 0 }) config.f) ≡ false → replica_step (record { config = config; shard = shard; replica = replica }) (state_after shard packets) (ReplicaInput.Message (Message.Txn packet)) ≡ record { state = state_after shard (packets ++ packet ∷ []); sends = record { to = Client packet.asker; message = Message.Vouch (record { 0 = 0 }) shard replica packet.stamp packet.id (phase_of packet.body) } ∷ [] } }
    ensures reply { (config : ConfigValue) (shard : ShardId) (replica : ReplicaId) (packets : List Packet) (packet : Packet) → number_in packet.stamp.places shard ≡ Some (length packets + 1) → packet.stamp.epoch ≡ record { 0 = 0 } → is_in_place_at_replica config (Message.Txn packet) ≡ true → same_replica replica (learner_of (record { 0 = 0 }) config.f) ≡ true → (answer : Answer) → answer_after shard packets packet ≡ Some answer → replica_step (record { config = config; shard = shard; replica = replica }) (state_after shard packets) (ReplicaInput.Message (Message.Txn packet)) ≡ record { state = state_after shard (packets ++ packet ∷ []); sends = record { to = Client packet.asker; message = Message.Reply (record { 0 = 0 }) shard replica packet.stamp packet.id (phase_of packet.body) answer } ∷ [] } }
    ensures answer { (shard : ShardId) (history : List HistoryEvent) → ((id : TxnId) (ops others : List Op) → Submitted history id ops → Submitted history id others → ops ≡ others) → (log : List Packet) (packet : Packet) (ops : List Op) → Each (IsWhole (Submitted history)) log → IsPacketOf (Submitted history) packet ops → (answer : Answer) × (answer_after shard log packet ≡ Some answer) × HasItems answer (ops_on shard ops) }
{}

/// Where at most f of a shard's 2f + 1 replicas are down, and not the first, a client that noted the votes of all that
/// are up, for one stamp in view 0, has counted the shard. The call does nothing; its contract is the law.
pub fn majorities_are_counted()
    ensures counted { (f : ℕ) (votes : List Vote) (counted : List (ShardId × Answer)) (shard : ShardId) (stamp : Stamp) (down : List (ShardId × ReplicaId)) → CountsAll f votes counted → how_many_down down shard.0 ≤ f → is_down down shard.0 0 ≡ false → ((replica : ℕ) → replica < 2 * f + 1 → is_down down shard.0 replica ≡ false → HasVote votes shard (record { 0 = replica }) stamp) → is_counted counted shard ≡ true }
{}
