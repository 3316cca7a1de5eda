ghost use Rattle.std.specs.Prelude.{◌≡◌, List, [], ◌∷◌, ◌++◌, Some, is_some, IsTrue, IsFalse};
ghost use Rattle.eris_base.specs.declared.ids.ShardId.{ShardId};
ghost use Rattle.eris_base.specs.declared.ids.TxnId.{TxnId};
ghost use Rattle.eris_base.specs.Each.{EachAfter};
ghost use Rattle.eris_txn.specs.declared.history.HistoryEvent.{HistoryEvent};
ghost use Rattle.eris_txn.specs.declared.key.Key.{Key};
ghost use Rattle.eris_txn.specs.declared.packet.Packet.{Packet};
ghost use Rattle.eris_txn.specs.declared.txn.Txn.{Txn};
ghost use Rattle.eris_txn.specs.Keys.{no_values};
ghost use Rattle.eris_locks.specs.Law.{plain_end};
ghost use Rattle.eris_locks.specs.Shards.{is_on, on_shard};
ghost use Rattle.eris_locks.specs.States.{is_conclusory};
ghost use Rattle.eris_locks.specs.WellFormed.{WellFormed};
ghost use Rattle.eris_audit.specs.Histories.{txn_of};
ghost use Rattle.eris_audit.specs.IsSerial.{IsSerial};
ghost use Rattle.eris_audit.specs.Lines.{StandsOnce, has_line, lines_of, outcome_in, stands_before};
ghost use Rattle.eris_audit.specs.SerialRun.{values_after};
ghost use Rattle.eris_order.specs.Orders.{lines, order_lines, outcome_at, outcome_of};
ghost use Rattle.eris_serial.specs.Cuts.{IsClosedCut};
ghost use Rattle.eris_serial.specs.Evidence.{Evidence, HasOwn, Origins, StandsBehind};

/// Where there is evidence for a history by an order of packets, the history is serial in the order's lines:
/// all five rules hold. The call does nothing; its contract is the law.
pub fn evidence_makes_serial()
    ensures serial { (history : List HistoryEvent) (order : List Packet) → Evidence history order → IsSerial history (lines_of (order_lines order)) }
    ensures origins { (history : List HistoryEvent) (order : List Packet) → Evidence history order → Origins (txn_of history) order }
{}

/// Where the packets of an order have their origins: on each shard they are a well-formed list for the lock
/// table; the map at the end of the serial run over the order's lines is, at a shard's keys, the map at the
/// end of that shard's plain run; and the packets of a closed cut of the order have their origins too, so
/// that all this holds of it. The call does nothing; its contract is the law.
pub fn origins_suffice()
    ensures well_formed { (txn : TxnId → Txn) (order : List Packet) → Origins txn order → (shard : ShardId) → WellFormed (on_shard shard order) }
    ensures one_map { (txn : TxnId → Txn) (order : List Packet) → Origins txn order → (shard : ShardId) (key : Key) → IsTrue (is_on shard key) → values_after txn (lines order) no_values key ≡ plain_end (on_shard shard order) key }
    ensures closed_cut { (txn : TxnId → Txn) (order part : List Packet) → Origins txn order → IsClosedCut order part → Origins txn part }
{}

/// The lines of an order: there is one for each id whose own packet stands in the order, and no id has two. An id
/// that stands behind another in the order has its line behind the other's. A line's outcome is what the first
/// own packet says: done, if it is an Independent; if it is a Prelim, aborted where a conclusory packet of the
/// id stands before it, else what the first one after it says. The call does nothing; its contract is the law.
pub fn lines_follow_the_order()
    ensures once { (order : List Packet) → EachAfter StandsOnce [] (lines order) }
    ensures own { (order : List Packet) (id : TxnId) → HasOwn id order → IsTrue (has_line (lines order) id) }
    ensures of_own { (order : List Packet) (id : TxnId) → IsTrue (has_line (lines order) id) → HasOwn id order }
    ensures behind { (order : List Packet) (first second : TxnId) → StandsBehind order first second → IsTrue (has_line (lines order) second) → IsTrue (stands_before (lines order) first second) }
    ensures outcome { (front after : List Packet) (packet : Packet) → (HasOwn packet.id front → ⊥) → IsFalse (is_conclusory packet.body) → outcome_in (lines (front ++ packet ∷ after)) packet.id ≡ Some (outcome_of packet.body (is_some (outcome_at packet.id front)) (outcome_at packet.id after)) }
{}
