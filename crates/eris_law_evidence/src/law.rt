ghost use Rattle.std.specs.Prelude.{◌≡◌, ◌≤◌, ℕ, List, [], ◌∷◌, ◌++◌};
ghost use Rattle.eris_base.specs.declared.ids.Phase.{Phase};
ghost use Rattle.eris_base.specs.declared.ids.ReplicaId.{ReplicaId};
ghost use Rattle.eris_base.specs.declared.ids.ShardId.{ShardId};
ghost use Rattle.eris_base.specs.declared.ids.TxnId.{TxnId};
ghost use Rattle.eris_base.specs.ConfigLimits.{ConfigValue};
ghost use Rattle.eris_txn.specs.declared.answer.Answer.{Answer};
ghost use Rattle.eris_txn.specs.declared.body.Body.{Body};
ghost use Rattle.eris_txn.specs.declared.packet.Packet.{Packet};
ghost use Rattle.eris_locks.specs.States.{phase_of};
ghost use Rattle.eris_msg.specs.declared.message.Message.{Message};
ghost use Rattle.eris_event.specs.declared.event.Event.{Event};
ghost use Rattle.eris_rules.specs.ClientStates.{ClientIdentity};
ghost use Rattle.eris_rules.specs.Good.{BeginsWith};
ghost use Rattle.eris_rules.specs.WorldOrders.{order, order_on};
ghost use Rattle.eris_serial.specs.Evidence.{SaidOn, StandsBehind};
ghost use Rattle.eris_law_epoch.specs.Members.{In};
ghost use Rattle.eris_law_agreement.specs.Alone.{stamping_of};
ghost use Rattle.eris_law_agreement.specs.EpochRuns.{servers_at};
ghost use Rattle.eris_law_agreement.specs.WorldMoments.{world_at};
ghost use Rattle.eris_law_client.specs.Bridges.{CountedIsSaid};
ghost use Rattle.eris_law_client.specs.ClientRuns.{ClientInput};
ghost use Rattle.eris_law_client.specs.Counts.{CountedOn};
ghost use Rattle.eris_law_evidence.specs.Fronts.{IsSaidFrom, IsUnstamped};
ghost use Rattle.eris_law_evidence.specs.Heard.{AllWasSent, WasAnswered, WasSent};

/// From the messages of a run to its order: where a shard was answered by a quorum, or by a Late, among the messages
/// that were sent by a moment, then the shard's store says that answer over a log with which the order begins on the
/// shard, then and at every later moment. The log behind what a quorum answered ends with the packet of that stamp. The
/// call does nothing; its contract is the law.
pub fn answers_begin_the_order()
    ensures replied { (config : ConfigValue) (events : List Event) (j : ℕ) (shard : ShardId) (id : TxnId) (phase : Phase) (answer : Answer) → WasAnswered config (servers_at config events j).sent shard id phase answer → IsSaidFrom config events j shard id phase answer }
    ensures ends { (config : ConfigValue) (events : List Event) (j : ℕ) (shard : ShardId) (id : TxnId) (phase : Phase) (answer : Answer) → (answered : WasAnswered config (servers_at config events j).sent shard id phase answer) → (front : List Packet) × (packet : Packet) × (packet.stamp ≡ answered.stamp) × ((k : ℕ) → j ≤ k → BeginsWith (order_on shard (world_at config events k)) (front ++ packet ∷ [])) }
    ensures late { (config : ConfigValue) (events : List Event) (j : ℕ) (shard : ShardId) (replica : ReplicaId) (id : TxnId) (phase : Phase) (answer : Answer) → WasSent (servers_at config events j).sent (Message.Late shard replica id phase answer) → IsSaidFrom config events j shard id phase answer }
    ensures over_the_order { (config : ConfigValue) (events : List Event) (j k : ℕ) → j ≤ k → (shard : ShardId) (id : TxnId) (phase : Phase) (answer : Answer) → IsSaidFrom config events j shard id phase answer → SaidOn shard id phase answer (order (world_at config events k)) }
{}

/// What a client counted is said over the order: where all that came to it in place was sent by a moment, each answer that it
/// counted is said from that moment on. The call does nothing; its contract is the law.
pub fn what_is_counted_is_said()
    ensures counted { (me : ClientIdentity) (events : List Event) (j : ℕ) (inputs : List ClientInput) (number : ℕ) → AllWasSent me.config (servers_at me.config events j).sent inputs number → (id : TxnId) (body : Body) (shard : ShardId) (answer : Answer) → CountedOn me inputs number id body shard answer → IsSaidFrom me.config events j shard id (phase_of body) answer }
    ensures is_said { (me : ClientIdentity) (events : List Event) (j k : ℕ) → j ≤ k → (inputs : List ClientInput) (number : ℕ) → AllWasSent me.config (servers_at me.config events j).sent inputs number → CountedIsSaid me inputs number (order (world_at me.config events k)) }
{}

/// Later means after: where an answer is said from a moment on, and no own packet of another id was stamped by then, then
/// at every later moment each own packet of the other stands in the order behind one of the answered id. The answer is
/// one of a whole transaction or of a first half (a refusal or values). The call does nothing; its contract is the law.
pub fn later_means_after()
    ensures behind { (config : ConfigValue) (events : List Event) (j k : ℕ) → j ≤ k → (shard : ShardId) (first second : TxnId) (phase : Phase) (answer : Answer) → IsSaidFrom config events j shard first phase answer → (phase ≡ Phase.Conclude → ⊥) → IsUnstamped config events j second → StandsBehind (order (world_at config events k)) first second }
    ensures stamped { (config : ConfigValue) (events : List Event) (k : ℕ) (packet : Packet) → In packet (order (world_at config events k)) → In packet (stamping_of config (servers_at config events k).stampings packet.stamp.epoch).stamped }
{}
