ghost use Rattle.std.specs.Prelude.{◌≡◌, true, false, None, Some, List, [], ◌∷◌, ◌++◌};
ghost use Rattle.eris_base.specs.declared.ids.Phase.{Phase};
ghost use Rattle.eris_base.specs.declared.ids.Place.{Place};
ghost use Rattle.eris_base.specs.declared.ids.ShardId.{ShardId};
ghost use Rattle.eris_base.specs.declared.ids.TxnId.{TxnId};
ghost use Rattle.eris_txn.specs.declared.answer.Answer.{Answer};
ghost use Rattle.eris_txn.specs.declared.key.Key.{Key};
ghost use Rattle.eris_txn.specs.declared.lock.Lock.{Lock};
ghost use Rattle.eris_txn.specs.declared.packet.Packet.{Packet};
ghost use Rattle.eris_locks.specs.declared.held.Held.{Held};
ghost use Rattle.eris_locks.specs.declared.shard_packet.ShardPacket.{ShardPacket};
ghost use Rattle.eris_locks.specs.Locks.{locks_of};
ghost use Rattle.eris_locks.specs.LockTable.{release, run_state};
ghost use Rattle.eris_locks.specs.Shards.{is_on, on_shard};
ghost use Rattle.eris_locks.specs.States.{StoreState, blocked, empty};
ghost use Rattle.eris_law_queue.specs.Candidates.{AllBlockedBut, is_freed, release_chosen};
ghost use Rattle.eris_law_queue.specs.Orderly.{IsOrderly};

/// Whatever packets a shard's store took: each one that waits is blocked, an id waits at most once and holds at
/// most once, no Commit and no Abort waits, what waits has no answer yet, and what holds has one. The call
/// does nothing; its contract is the law.
pub fn states_are_orderly()
    ensures { (packets : List ShardPacket) → IsOrderly (run_state empty packets) }
{}

/// What is recorded or decided never changes, whatever packets come later. The call does nothing; its contract
/// is the law.
pub fn records_stay()
    ensures recorded { (packets rest : List ShardPacket) (id : TxnId) (phase : Phase) (answer : Answer) → (run_state empty packets).recorded id phase ≡ Some answer → (run_state empty (packets ++ rest)).recorded id phase ≡ Some answer }
    ensures decided { (packets rest : List ShardPacket) (id : TxnId) (outcome : Answer) → (run_state empty packets).decided id ≡ Some outcome → (run_state empty (packets ++ rest)).decided id ≡ Some outcome }
{}

/// A blocked packet stays blocked unless one leaves that was in its way, be it a holder or one that waits, and
/// no other one that waits before it locks that key Exclusive. So a release that looks only at such candidates
/// leaves the same state and gives the same answers as the release over all that wait. The call does nothing;
/// its contract is the law.
pub fn releases_need_no_more()
    ensures holder { (some others : List Held) (held : Held) (before : List ShardPacket) (locks : List Lock) → blocked (some ++ held ∷ others) before locks ≡ true → is_freed held.locks before locks ≡ false → blocked (some ++ others) before locks ≡ true }
    ensures waiting { (holding : List Held) (some others : List ShardPacket) (packet : ShardPacket) (locks : List Lock) → blocked holding (some ++ packet ∷ others) locks ≡ true → is_freed (locks_of packet.body) (some ++ others) locks ≡ false → blocked holding (some ++ others) locks ≡ true }
    ensures release { (at : Place) (chosen : List TxnId) (state : StoreState) (before packets : List ShardPacket) → AllBlockedBut chosen state.holding before packets → release_chosen at chosen state before packets ≡ release at state before packets }
{}

/// A shard's store gives values to keys of its shard alone, whatever packets it took. The call does nothing; its
/// contract is the law.
pub fn values_are_of_the_shard()
    ensures { (shard : ShardId) (packets : List Packet) (key : Key) → is_on shard key ≡ false → (run_state empty (on_shard shard packets)).values key ≡ None }
{}
