ghost use Rattle.std.specs.Prelude.{◌≡◌, ℕ, Bool, List, Option, [], ◌++◌, map, filter, length, IsTrue};
ghost use Rattle.eris_base.specs.declared.ids.Phase.{Phase};
ghost use Rattle.eris_base.specs.declared.ids.ShardId.{ShardId};
ghost use Rattle.eris_base.specs.declared.ids.TxnId.{TxnId};
ghost use Rattle.eris_base.specs.Each.{Each, EachAfter};
ghost use Rattle.eris_txn.specs.declared.answer.Answer.{Answer};
ghost use Rattle.eris_txn.specs.declared.body.Body.TheVariants.{Prelim};
ghost use Rattle.eris_txn.specs.declared.history.HistoryEvent.{HistoryEvent};
ghost use Rattle.eris_txn.specs.declared.key.Key.{Key};
ghost use Rattle.eris_txn.specs.declared.op.Op.{Op};
ghost use Rattle.eris_txn.specs.declared.op.OpAnswer.{OpAnswer};
ghost use Rattle.eris_txn.specs.declared.packet.Packet.{Packet};
ghost use Rattle.eris_txn.specs.declared.txn.Txn.{Txn};
ghost use Rattle.eris_txn.specs.declared.txn.Txn.TheVariants.{General, Whole};
ghost use Rattle.eris_txn.specs.Bodies.{keys_of};
ghost use Rattle.eris_txn.specs.Operations.{key_of};
ghost use Rattle.eris_txn.specs.PlanValues.{PlanValue};
ghost use Rattle.eris_txn.specs.Plans.{locks_of};
ghost use Rattle.eris_txn.specs.Sizes.{event_has_size};
ghost use Rattle.eris_locks.specs.declared.shard_packet.ShardPacket.{ShardPacket};
ghost use Rattle.eris_locks.specs.Law.{Said};
ghost use Rattle.eris_locks.specs.LockTable.{run_dones};
ghost use Rattle.eris_locks.specs.Shards.{cut, is_on, on_shard};
ghost use Rattle.eris_locks.specs.States.{empty};
ghost use Rattle.eris_audit.specs.Histories.{txn_of};
ghost use Rattle.eris_order.specs.Orders.{packets_on};
ghost use Rattle.eris_serial.specs.Evidence.{HasOwn, IsIn, ReadEvidence, RefusalEvidence, SaidOn, StandsBehind, SubmitsWell, SubmittedLater, WholeEvidence};
ghost use Rattle.eris_serial.specs.Joining.{GaveEach, IsJoined, TakesInTurn, shards_in_order};
ghost use Rattle.eris_serial.specs.Times.{EachAnswerFirst, IsOneWay, IsOrderedBy, IsOwn};
ghost use Rattle.eris_serial.specs.Transactions.{keys_in, takes_part};

/// From a log to what was said: where a log begins the order's packets on a shard, what a store says over
/// the log, the shard says over the order. The log may be one of cut packets or of whole ones, since the
/// packets that a shard sees are those on it, each cut to it. The call does nothing; its contract is the law.
pub fn logs_say()
    ensures seen { (shard : ShardId) (packets : List Packet) → on_shard shard packets ≡ map (cut shard) (packets_on shard packets) }
    ensures cut_log { (shard : ShardId) (id : TxnId) (phase : Phase) (answer : Answer) (order : List Packet) (log more : List ShardPacket) → on_shard shard order ≡ log ++ more → Said id phase answer (run_dones empty log) → SaidOn shard id phase answer order }
    ensures whole_log { (shard : ShardId) (id : TxnId) (phase : Phase) (answer : Answer) (order log more : List Packet) → packets_on shard order ≡ log ++ more → Said id phase answer (run_dones empty (map (cut shard) log)) → SaidOn shard id phase answer order }
{}

/// From the shards' answers to one answer in the order of the body. Each shard gave one item for each of its
/// operations or keys, which is a matter of lengths. Then what a function makes that takes, for each operation
/// or key in order, the next item of its shard, has one item for each, and each shard's share of it is what
/// the shard gave. The call does nothing; its contract is the law.
pub fn shards_join()
    ensures operations { (take : List ShardId → (ShardId → List OpAnswer) → List OpAnswer) → TakesInTurn take → (operations : List Op) (given : ShardId → List OpAnswer) → GaveEach key_of operations given → IsJoined key_of operations given (take (shards_in_order (map key_of operations)) given) }
    ensures keys { (take : List ShardId → (ShardId → List (Option ℕ)) → List (Option ℕ)) → TakesInTurn take → (keys : List Key) (given : ShardId → List (Option ℕ)) → GaveEach (λ key. key) keys given → IsJoined (λ key. key) keys given (take (shards_in_order keys) given) }
    ensures operations_given { (operations : List Op) (given : ShardId → List OpAnswer) → ((shard : ShardId) → length (given shard) ≡ length (filter (λ op. is_on shard (key_of op)) operations)) → GaveEach key_of operations given }
    ensures keys_given { (keys : List Key) (given : ShardId → List (Option ℕ)) → ((shard : ShardId) → length (given shard) ≡ length (filter (λ key. is_on shard key) keys)) → GaveEach (λ key. key) keys given }
{}

/// A joined answer is evidence where each shard that takes part said what it gave. The call does nothing; its
/// contract is the law.
pub fn joined_is_evidence()
    ensures whole { (txn : TxnId → Txn) (id : TxnId) (operations : List Op) (given : ShardId → List OpAnswer) (answers : List OpAnswer) (packets : List Packet) → txn id ≡ Whole operations → (operations ≡ [] → ⊥) → IsJoined key_of operations given answers → ((shard : ShardId) → IsTrue (takes_part shard (txn id)) → SaidOn shard id Phase.Whole (Answer.Ops (given shard)) packets) → WholeEvidence txn id (Answer.Ops answers) packets }
    ensures read { (txn : TxnId → Txn) (id : TxnId) (plan : PlanValue) (given : ShardId → List (Option ℕ)) (values : List (Option ℕ)) (packets : List Packet) → txn id ≡ General plan → IsJoined (λ key. key) plan.keys given values → ((shard : ShardId) → IsTrue (takes_part shard (txn id)) → SaidOn shard id Phase.Prelim (Answer.Values (given shard)) packets) → ReadEvidence txn id values packets }
{}

/// What was counted over a list stands in it: the own packet of an id whose values were read, which was
/// answered as a whole transaction, or which was refused. The call does nothing; its contract is the law.
pub fn counted_stands()
    ensures read { (history : List HistoryEvent) → Each SubmitsWell history → (id : TxnId) (values : List (Option ℕ)) (packets : List Packet) → ReadEvidence (txn_of history) id values packets → HasOwn id packets }
    ensures whole { (txn : TxnId → Txn) (id : TxnId) (answer : Answer) (packets : List Packet) → WholeEvidence txn id answer packets → HasOwn id packets }
    ensures refused { (txn : TxnId → Txn) (id : TxnId) (answer : Answer) (packets : List Packet) → RefusalEvidence txn id answer packets → HasOwn id packets }
    ensures is_there { (id : TxnId) (packets : List Packet) (packet : Packet) → IsIn packet packets → IsOwn id packet → HasOwn id packets }
    ensures found { (id : TxnId) (packets : List Packet) → HasOwn id packets → (packet : Packet) × IsIn packet packets × IsOwn id packet }
{}

/// From the order of stamping to the rule of real time. An id stands behind another where a beginning of the
/// order has an own packet of the other and none of it; and where the order is sorted and some own packet
/// of the other is below each of its own. Rule 4's premise follows from all pairs of an answer and a submit
/// behind it. The call does nothing; its contract is the law.
pub fn stamped_later()
    ensures beginning { (first second : TxnId) (old new : List Packet) → HasOwn first old → Each (λ packet. IsOwn second packet → ⊥) old → StandsBehind (old ++ new) first second }
    ensures sorted { (below : Packet → Packet → Bool) → IsOneWay below → (order : List Packet) → IsOrderedBy below order → (first second : TxnId) (packet : Packet) → IsIn packet order → IsOwn first packet → ((other : Packet) → IsIn other order → IsOwn second other → IsTrue (below packet other)) → StandsBehind order first second }
    ensures pairs { (history : List HistoryEvent) (order : List Packet) → EachAnswerFirst history order → EachAfter (SubmittedLater order) [] history }
{}

/// What sizes and bodies give: an event of its size submits what can be run, and a preliminary speaks of its
/// plan's keys. The call does nothing; its contract is the law.
pub fn sizes_suffice()
    ensures submits { (event : HistoryEvent) → IsTrue (event_has_size event) → SubmitsWell event }
    ensures prelim_keys { (plan : PlanValue) → keys_of (Prelim (locks_of plan)) ≡ keys_in (General plan) }
{}
