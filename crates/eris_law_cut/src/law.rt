ghost use Rattle.std.specs.Prelude.{◌≡◌, ℕ, Option, Some, List, [], map, IsTrue};
ghost use Rattle.eris_base.specs.ConfigLimits.{ConfigValue};
ghost use Rattle.eris_base.specs.declared.ids.ShardId.{ShardId};
ghost use Rattle.eris_base.specs.declared.ids.TxnId.{TxnId};
ghost use Rattle.eris_txn.specs.declared.answer.Answer.{Answer};
ghost use Rattle.eris_txn.specs.declared.history.HistoryEvent.{HistoryEvent};
ghost use Rattle.eris_txn.specs.declared.key.Key.{Key};
ghost use Rattle.eris_txn.specs.declared.packet.Packet.{Packet};
ghost use Rattle.eris_txn.specs.Keys.{no_values};
ghost use Rattle.eris_locks.specs.LockTable.{run_state};
ghost use Rattle.eris_locks.specs.Shards.{cut, is_on};
ghost use Rattle.eris_locks.specs.States.{empty};
ghost use Rattle.eris_locks.specs.WellFormed.{WellFormed};
ghost use Rattle.eris_audit.specs.declared.outcome.Outcome.{Outcome};
ghost use Rattle.eris_audit.specs.Histories.{txn_of};
ghost use Rattle.eris_audit.specs.IsSerial.{IsAnswer};
ghost use Rattle.eris_audit.specs.Lines.{Line, has_line};
ghost use Rattle.eris_audit.specs.SerialRun.{result_in, values_after};
ghost use Rattle.eris_order.specs.Orders.{lines, packets_on};
ghost use Rattle.eris_serial.specs.Cuts.{IsClosedCut};
ghost use Rattle.eris_serial.specs.Evidence.{IsIn};
ghost use Rattle.eris_event.specs.declared.event.Event.{Event};
ghost use Rattle.eris_rules.specs.WorldOrders.{order};
ghost use Rattle.eris_rules.specs.Worlds.{WorldState};
ghost use Rattle.eris_cut.specs.Cuts.{part_of, prefix_of};
ghost use Rattle.eris_law_past.specs.Pasts.{IsPast};
ghost use Rattle.eris_law_cut.specs.SettledCuts.{IsSettledCut};

/// Take the world of a run, of each shard a log that a replica has settled, and a closed cut of these logs. What of
/// the world's order stands within the cut is a closed cut of the order, each preliminary of it is concluded in it, and
/// on each shard it is the prefix there. The call does nothing; its contract is the law.
pub fn settled_cuts_are_cuts()
    ensures cut { (config : ConfigValue) (events : List Event) (world : WorldState) (logs : List (List Packet)) (lengths : List ℕ) → IsSettledCut config events world logs lengths → IsClosedCut (order world) (part_of (order world) logs lengths) }
    ensures past { (config : ConfigValue) (events : List Event) (world : WorldState) (logs : List (List Packet)) (lengths : List ℕ) → IsSettledCut config events world logs lengths → IsPast (order world) (part_of (order world) logs lengths) }
    ensures prefix { (config : ConfigValue) (events : List Event) (world : WorldState) (logs : List (List Packet)) (lengths : List ℕ) → IsSettledCut config events world logs lengths → (shard : ShardId) → packets_on shard (part_of (order world) logs lengths) ≡ prefix_of logs lengths shard }
{}

/// Over a shard's prefix, which is well formed, a store ends with nothing that holds or waits; and its values, key by
/// key, are those of the serial run over the lines of what stands within the cut. The call does nothing; its contract
/// is the law.
pub fn the_copy_is_the_past()
    ensures formed { (config : ConfigValue) (events : List Event) (world : WorldState) (logs : List (List Packet)) (lengths : List ℕ) → IsSettledCut config events world logs lengths → (shard : ShardId) → WellFormed (map (cut shard) (prefix_of logs lengths shard)) }
    ensures holding { (config : ConfigValue) (events : List Event) (world : WorldState) (logs : List (List Packet)) (lengths : List ℕ) → IsSettledCut config events world logs lengths → (shard : ShardId) → (run_state empty (map (cut shard) (prefix_of logs lengths shard))).holding ≡ [] }
    ensures waiting { (config : ConfigValue) (events : List Event) (world : WorldState) (logs : List (List Packet)) (lengths : List ℕ) → IsSettledCut config events world logs lengths → (shard : ShardId) → (run_state empty (map (cut shard) (prefix_of logs lengths shard))).waiting ≡ [] }
    ensures values { (config : ConfigValue) (events : List Event) (world : WorldState) (logs : List (List Packet)) (lengths : List ℕ) → IsSettledCut config events world logs lengths → (shard : ShardId) (key : Key) → IsTrue (is_on shard key) → (run_state empty (map (cut shard) (prefix_of logs lengths shard))).values key ≡ values_after (txn_of world.history) (lines (part_of (order world) logs lengths)) no_values key }
{}

/// Each line of what stands within the cut is one of the order's lines, with that outcome, and none is pending; and its
/// transaction has in the serial run over these lines the result that it has in the run over the order's. So what the
/// world's history has read or was answered of it is what the run over these lines gives. The call does nothing; its
/// contract is the law.
pub fn the_past_stands()
    ensures lines { (config : ConfigValue) (events : List Event) (world : WorldState) (logs : List (List Packet)) (lengths : List ℕ) → IsSettledCut config events world logs lengths → (line : Line) → IsIn line (lines (part_of (order world) logs lengths)) → IsIn line (lines (order world)) }
    ensures decided { (config : ConfigValue) (events : List Event) (world : WorldState) (logs : List (List Packet)) (lengths : List ℕ) → IsSettledCut config events world logs lengths → (line : Line) → IsIn line (lines (part_of (order world) logs lengths)) → line.outcome ≡ Outcome.Pending → ⊥ }
    ensures results { (config : ConfigValue) (events : List Event) (world : WorldState) (logs : List (List Packet)) (lengths : List ℕ) → IsSettledCut config events world logs lengths → (id : TxnId) → IsTrue (has_line (lines (part_of (order world) logs lengths)) id) → result_in (txn_of world.history) (lines (part_of (order world) logs lengths)) no_values id ≡ result_in (txn_of world.history) (lines (order world)) no_values id }
    ensures reads { (config : ConfigValue) (events : List Event) (world : WorldState) (logs : List (List Packet)) (lengths : List ℕ) → IsSettledCut config events world logs lengths → (id : TxnId) (values : List (Option ℕ)) → IsIn (HistoryEvent.Read id values) world.history → IsTrue (has_line (lines (part_of (order world) logs lengths)) id) → result_in (txn_of world.history) (lines (part_of (order world) logs lengths)) no_values id ≡ Some (Answer.Values values) }
    ensures answers { (config : ConfigValue) (events : List Event) (world : WorldState) (logs : List (List Packet)) (lengths : List ℕ) → IsSettledCut config events world logs lengths → (id : TxnId) (answer : Answer) → IsIn (HistoryEvent.Answer id answer) world.history → IsTrue (has_line (lines (part_of (order world) logs lengths)) id) → IsAnswer world.history (lines (part_of (order world) logs lengths)) id answer (txn_of world.history id) }
{}
