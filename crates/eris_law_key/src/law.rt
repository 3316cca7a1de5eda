ghost use Rattle.std.specs.Prelude.{◌≡◌, ◌≤◌, ◌<◌, ℕ, suc, true, false, Some, List};
ghost use Rattle.eris_base.specs.declared.ids.Node.{Node};
ghost use Rattle.eris_base.specs.declared.ids.Phase.{Phase};
ghost use Rattle.eris_base.specs.declared.ids.Place.{Place};
ghost use Rattle.eris_base.specs.declared.ids.ReplicaId.{ReplicaId};
ghost use Rattle.eris_base.specs.declared.ids.ShardId.{ShardId};
ghost use Rattle.eris_base.specs.declared.ids.TxnId.{TxnId};
ghost use Rattle.eris_base.specs.declared.ids.View.{View};
ghost use Rattle.eris_base.specs.declared.stamp.Stamp.{Stamp};
ghost use Rattle.eris_base.specs.Quorums.{learner_of};
ghost use Rattle.eris_base.specs.StampPlaces.{has_place};
ghost use Rattle.eris_txn.specs.declared.answer.Answer.{Answer};
ghost use Rattle.eris_txn.specs.declared.packet.Packet.{Packet};
ghost use Rattle.eris_log.specs.declared.entry.Entry.{Entry};
ghost use Rattle.eris_log.specs.Entries.{entry_of, is_dropped};
ghost use Rattle.eris_log.specs.Held.{packet_at};
ghost use Rattle.eris_log.specs.Places.{any_among, contains_place};
ghost use Rattle.eris_rules.specs.EpochMessages.{Responds, Vouch, Reply, Late};
ghost use Rattle.eris_rules.specs.ReplicaStates.{is_normal};
ghost use Rattle.eris_law_epoch.specs.EpochWorlds.{EpochSystem, EpochEvent, moment};
ghost use Rattle.eris_law_epoch.specs.Members.{In};
ghost use Rattle.eris_law_key.specs.Quorums.{SpokePast, IsBacked, IsAgreed, IsSettledBy};
ghost use Rattle.eris_law_epoch.specs.Reading.{replica_then};
ghost use Rattle.eris_law_key.specs.Spoken.{SpokeThen, RepliedThen, GaveLateThen};
ghost use Rattle.eris_law_epoch.specs.Stamped.{HasNumber};

/// A found packet has no dropped place; and the first dropped place of a packet was dropped for a time, in one view,
/// by f+1 replicas of each shard with the view's learner among them, before any place of the packet was dropped. The
/// call does nothing; its contract is the law.
pub fn drops_are_agreed()
    ensures apart { (system : EpochSystem) (events : List EpochEvent) (k : ℕ) (place : Place) (packet : Packet) → contains_place (moment system events k).coordinator.dropped place ≡ true → In packet (moment system events k).coordinator.found → has_place packet.stamp place ≡ false }
    ensures first { (system : EpochSystem) (events : List EpochEvent) (j k : ℕ) (shard : ShardId) (packet : Packet) (place : Place) → suc j ≤ k → In packet (moment system events k).stamping.stamped → has_place packet.stamp place ≡ true → any_among (moment system events j).coordinator.dropped packet.stamp ≡ false → contains_place (moment system events (suc j)).coordinator.dropped place ≡ true → shard.0 < system.config.shards → IsAgreed system events j shard place }
{}

/// A replica that takes part in a view above 0 has in its part all that f+1 replicas of its shard had in that view.
/// The call does nothing; its contract is the law.
pub fn views_are_backed()
    ensures backed { (system : EpochSystem) (events : List EpochEvent) (k : ℕ) (shard : ShardId) (replica : ReplicaId) → is_normal (replica_then system events k shard replica).status ≡ true → 0 < (replica_then system events k shard replica).view.0 → IsBacked system events k shard (replica_then system events k shard replica).view (replica_then system events k shard replica).part }
{}

/// THE KEY LEMMA: where f+1 replicas of a shard, the view's learner among them, had no gap up to a number, and the
/// learner counted the packet there, no place of the packet is dropped on any shard, by then or ever after. The call
/// does nothing; its contract is the law.
pub fn spoken_past_is_kept()
    ensures key { (system : EpochSystem) (events : List EpochEvent) (k : ℕ) (shard : ShardId) (number : ℕ) (packet : Packet) → In packet (moment system events k).stamping.stamped → HasNumber packet shard number → (view : View) (past : SpokePast system events k shard view number) → entry_of (replica_then system events past.learner.moment shard (learner_of view system.config.f)).part number ≡ Entry.Txn → any_among (moment system events k).coordinator.dropped packet.stamp ≡ false }
{}

/// What stands behind each message to a client: who sent a Vouch or a Reply held the packet, counted it and had no gap
/// before it, in that view; and the learner that gave a late answer settled its log up to there. The call does
/// nothing; its contract is the law.
pub fn what_is_said_is_so()
    ensures vouch { (system : EpochSystem) (events : List EpochEvent) (k : ℕ) (to : Node) (view : View) (shard : ShardId) (replica : ReplicaId) (stamp : Stamp) (id : TxnId) (phase : Phase) → In (record { to = to; message = Responds (Vouch view shard replica stamp id phase) }) (moment system events k).sent → SpokeThen system events k shard view stamp id phase replica }
    ensures reply { (system : EpochSystem) (events : List EpochEvent) (k : ℕ) (to : Node) (view : View) (shard : ShardId) (replica : ReplicaId) (stamp : Stamp) (id : TxnId) (phase : Phase) (answer : Answer) → In (record { to = to; message = Responds (Reply view shard replica stamp id phase answer) }) (moment system events k).sent → RepliedThen system events k shard view stamp id phase answer replica }
    ensures late { (system : EpochSystem) (events : List EpochEvent) (k : ℕ) (to : Node) (shard : ShardId) (replica : ReplicaId) (id : TxnId) (phase : Phase) (answer : Answer) → In (record { to = to; message = Responds (Late shard replica id phase answer) }) (moment system events k).sent → GaveLateThen system events k shard id phase answer replica }
{}

/// What is settled stays: a settled number rests on a quorum that spoke past it; and up to its settled number at a
/// moment, a replica's entry is dropped exactly where its packet is dropped at any later moment, and is held where it
/// isn't. The call does nothing; its contract is the law.
pub fn settled_stays()
    ensures settled { (system : EpochSystem) (events : List EpochEvent) (k : ℕ) (shard : ShardId) (replica : ReplicaId) → 0 < (replica_then system events k shard replica).settled → IsSettledBy system events k shard (replica_then system events k shard replica).settled (replica_then system events k shard replica).part }
    ensures kept { (system : EpochSystem) (events : List EpochEvent) (k j : ℕ) (shard : ShardId) (replica : ReplicaId) (number : ℕ) (packet : Packet) → j ≤ k → In packet (moment system events k).stamping.stamped → HasNumber packet shard number → number ≤ (replica_then system events j shard replica).settled → is_dropped (replica_then system events j shard replica).part number ≡ any_among (moment system events k).coordinator.dropped packet.stamp }
    ensures held { (system : EpochSystem) (events : List EpochEvent) (k j : ℕ) (shard : ShardId) (replica : ReplicaId) (number : ℕ) (packet : Packet) → j ≤ k → In packet (moment system events k).stamping.stamped → HasNumber packet shard number → number ≤ (replica_then system events j shard replica).settled → is_dropped (replica_then system events j shard replica).part number ≡ false → packet_at (replica_then system events j shard replica).part.held number ≡ Some packet }
{}
