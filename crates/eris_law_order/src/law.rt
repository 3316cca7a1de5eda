ghost use Rattle.std.specs.Prelude.{◌≡◌, ◌≤◌, ◌<◌, ℕ, List, IsFalse};
ghost use Rattle.eris_base.specs.declared.ids.Epoch.{Epoch};
ghost use Rattle.eris_base.specs.declared.ids.ReplicaId.{ReplicaId};
ghost use Rattle.eris_base.specs.declared.ids.ShardId.{ShardId};
ghost use Rattle.eris_base.specs.declared.ids.View.{View};
ghost use Rattle.eris_base.specs.ConfigLimits.{ConfigValue};
ghost use Rattle.eris_txn.specs.declared.packet.Packet.{Packet};
ghost use Rattle.eris_log.specs.Places.{any_among};
ghost use Rattle.eris_event.specs.declared.event.Event.{Event};
ghost use Rattle.eris_rules.specs.Good.{BeginsWith, AreSettledRight, settled_log};
ghost use Rattle.eris_rules.specs.WorldOrders.{order, order_on};
ghost use Rattle.eris_law_epoch.specs.EpochWorlds.{EpochEvent, moment};
ghost use Rattle.eris_law_epoch.specs.Members.{In};
ghost use Rattle.eris_law_epoch.specs.Stamped.{HasNumber};
ghost use Rattle.eris_law_key.specs.Quorums.{SpokePast};
ghost use Rattle.eris_law_agreement.specs.Alone.{state_of, stamping_of};
ghost use Rattle.eris_law_agreement.specs.EpochRuns.{servers_at, system_of, IsEpochRun};
ghost use Rattle.eris_law_agreement.specs.WorldMoments.{world_at};

/// What was spoken past stays: take the run of an epoch by itself. Where a quorum of a shard
/// spoke past a number in it, the packet there, unless a place of it is dropped, is closed once a higher epoch is
/// current. A closed packet is of an epoch below the current one; it was stamped in that epoch, and none of its
/// places is dropped there. The call does nothing; its contract is the law.
pub fn closing_keeps_what_was_spoken()
    ensures spoken { (config : ConfigValue) (events : List Event) (last : ℕ) (epoch : Epoch) → (own : List EpochEvent) × IsEpochRun config events last epoch last own × ((k : ℕ) (shard : ShardId) (view : View) (n m : ℕ) (packet : Packet) → k ≤ last → SpokePast (system_of config events last epoch) own k shard view n → 1 ≤ m → m ≤ n → shard.0 < config.shards → In packet (moment (system_of config events last epoch) own k).stamping.stamped → HasNumber packet shard m → IsFalse (any_among (moment (system_of config events last epoch) own k).coordinator.dropped packet.stamp) → epoch.0 < (servers_at config events k).coordinator.current.0 → In packet (servers_at config events k).coordinator.closed) }
    ensures below { (config : ConfigValue) (events : List Event) (k : ℕ) (packet : Packet) → In packet (servers_at config events k).coordinator.closed → packet.stamp.epoch.0 < (servers_at config events k).coordinator.current.0 }
    ensures stamped { (config : ConfigValue) (events : List Event) (k : ℕ) (packet : Packet) → In packet (servers_at config events k).coordinator.closed → In packet (stamping_of config (servers_at config events k).stampings packet.stamp.epoch).stamped }
{}

/// What is stamped in a closed epoch from then on is never in the order: a packet of the order that wasn't stamped by
/// an earlier moment is of no epoch that was left behind by then, be it one that was skipped or one whose sequencer
/// goes on. The call does nothing; its contract is the law.
pub fn left_epochs_are_done()
    ensures closed { (config : ConfigValue) (events : List Event) (j k : ℕ) → j ≤ k → (packet : Packet) → packet.stamp.epoch.0 < (servers_at config events j).coordinator.current.0 → In packet (servers_at config events k).coordinator.closed → In packet (servers_at config events j).coordinator.closed }
    ensures later { (config : ConfigValue) (events : List Event) (j k : ℕ) → j ≤ k → (packet : Packet) → In packet (order (world_at config events k)) → (In packet (stamping_of config (servers_at config events j).stampings packet.stamp.epoch).stamped → ⊥) → (servers_at config events j).coordinator.current.0 ≤ packet.stamp.epoch.0 }
{}

/// THE PREFIX CLAUSE: what a replica has settled at a moment, be it crashed since or not, is how the order begins on its
/// shard at every later moment; so every world's settled logs are right. The call does nothing; its contract is the law.
pub fn settled_logs_begin_the_order()
    ensures settled { (config : ConfigValue) (events : List Event) (k : ℕ) → AreSettledRight (world_at config events k) }
    ensures later { (config : ConfigValue) (events : List Event) (j k : ℕ) → j ≤ k → (shard : ShardId) (replica : ReplicaId) → BeginsWith (order_on shard (world_at config events k)) (settled_log (state_of (servers_at config events j).replicas shard replica)) }
{}
