ghost use Rattle.std.specs.Prelude.{◌≡◌, ℕ, false, List, [], ◌++◌, map, IsTrue};
ghost use Rattle.eris_base.specs.declared.ids.Phase.{Phase};
ghost use Rattle.eris_base.specs.declared.ids.ShardId.{ShardId};
ghost use Rattle.eris_base.specs.declared.ids.TxnId.{TxnId};
ghost use Rattle.eris_txn.specs.declared.key.Key.{Key};
ghost use Rattle.eris_txn.specs.declared.packet.Packet.{Packet};
ghost use Rattle.eris_txn.specs.declared.txn.Txn.{Txn};
ghost use Rattle.eris_txn.specs.Keys.{no_values};
ghost use Rattle.eris_locks.specs.declared.shard_packet.ShardPacket.{ShardPacket};
ghost use Rattle.eris_locks.specs.Law.{HasPacket, StandsIn, plain_answers, plain_end};
ghost use Rattle.eris_locks.specs.LockTable.{run_state};
ghost use Rattle.eris_locks.specs.ShardRun.{Served};
ghost use Rattle.eris_locks.specs.Shards.{cut, is_on, on_shard};
ghost use Rattle.eris_locks.specs.States.{empty, holds};
ghost use Rattle.eris_locks.specs.WellFormed.{WellFormed};
ghost use Rattle.eris_audit.specs.declared.outcome.Outcome.{Outcome};
ghost use Rattle.eris_audit.specs.Lines.{Line, has_line, outcome_in};
ghost use Rattle.eris_audit.specs.SerialRun.{result_in, values_after};
ghost use Rattle.eris_order.specs.Orders.{lines, packets_on};
ghost use Rattle.eris_serial.specs.Evidence.{IsIn, Origins};
ghost use Rattle.eris_cut.specs.Cuts.{IsClosed, part_of, prefix_of};
ghost use Rattle.eris_law_past.specs.Pasts.{AllConcluded, AreBeginnings, IsPast};

/// Once a Commit or an Abort of an id came to a shard, no preliminary of the id holds there, ever after. So where each
/// preliminary that came is concluded, none holds and nothing waits, and over a well-formed list the values are those
/// of the plain run. The call does nothing; its contract is the law.
pub fn nothing_holds_there()
    ensures ended { (packets : List ShardPacket) (id : TxnId) → HasPacket id Phase.Conclude packets → holds id (run_state empty packets).holding ≡ false }
    ensures holding { (packets : List ShardPacket) → AllConcluded packets → (run_state empty packets).holding ≡ [] }
    ensures waiting { (packets : List ShardPacket) → AllConcluded packets → (run_state empty packets).waiting ≡ [] }
    ensures values { (packets : List ShardPacket) → WellFormed packets → AllConcluded packets → (run_state empty packets).values ≡ plain_end packets }
{}

/// Where each preliminary of a beginning is concluded in it, the plain run of the whole list answers what that of the
/// beginning does: what a preliminary will write is found within the beginning. The call does nothing; its contract is
/// the law.
pub fn pasts_begin_the_run()
    ensures answers { (packets rest : List ShardPacket) → AllConcluded packets → (served : Served) → StandsIn served (plain_answers packets) → StandsIn served (plain_answers (packets ++ rest)) }
{}

/// Where lists begin an order on its shards, what of the order stands within a closed cut of them is a past of the
/// order, and on each shard it is the prefix there. The call does nothing; its contract is the law.
pub fn closed_cuts_are_pasts()
    ensures past { (order : List Packet) (logs : List (List Packet)) (lengths : List ℕ) → AreBeginnings order logs → IsClosed logs lengths → IsPast order (part_of order logs lengths) }
    ensures prefix { (order : List Packet) (logs : List (List Packet)) (lengths : List ℕ) → AreBeginnings order logs → IsClosed logs lengths → (shard : ShardId) → packets_on shard (part_of order logs lengths) ≡ prefix_of logs lengths shard }
    ensures taken { (order : List Packet) (logs : List (List Packet)) (lengths : List ℕ) → AreBeginnings order logs → IsClosed logs lengths → (shard : ShardId) → on_shard shard (part_of order logs lengths) ≡ map (cut shard) (prefix_of logs lengths shard) }
{}

/// Of a past of an order whose packets have their origins: on each shard its stores end with the map that the serial
/// run over its lines has; each of its lines is one of the order's, with that outcome, and is decided; and its id has
/// in the serial run over its lines the result that it has in the run over the order's. The call does nothing; its
/// contract is the law.
pub fn pasts_stand()
    ensures origins { (txn : TxnId → Txn) (order part : List Packet) → Origins txn order → IsPast order part → Origins txn part }
    ensures concluded { (txn : TxnId → Txn) (order part : List Packet) → Origins txn order → IsPast order part → (shard : ShardId) → AllConcluded (on_shard shard part) }
    ensures values { (txn : TxnId → Txn) (order part : List Packet) → Origins txn order → IsPast order part → (shard : ShardId) (key : Key) → IsTrue (is_on shard key) → (run_state empty (on_shard shard part)).values key ≡ values_after txn (lines part) no_values key }
    ensures lines { (txn : TxnId → Txn) (order part : List Packet) → Origins txn order → IsPast order part → (line : Line) → IsIn line (lines part) → IsIn line (lines order) }
    ensures decided { (txn : TxnId → Txn) (order part : List Packet) → Origins txn order → IsPast order part → (line : Line) → IsIn line (lines part) → line.outcome ≡ Outcome.Pending → ⊥ }
    ensures outcomes { (txn : TxnId → Txn) (order part : List Packet) → Origins txn order → IsPast order part → (id : TxnId) → IsTrue (has_line (lines part) id) → outcome_in (lines part) id ≡ outcome_in (lines order) id }
    ensures results { (txn : TxnId → Txn) (order part : List Packet) → Origins txn order → IsPast order part → (id : TxnId) → IsTrue (has_line (lines part) id) → result_in txn (lines part) no_values id ≡ result_in txn (lines order) no_values id }
{}
