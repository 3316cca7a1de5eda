ghost use Rattle.std.specs.Prelude.{◌≤◌, ◌<◌, ℕ, suc, List};
ghost use Rattle.eris_base.specs.declared.ids.ReplicaId.{ReplicaId};
ghost use Rattle.eris_base.specs.declared.ids.ShardId.{ShardId};
ghost use Rattle.eris_rules.specs.EpochMessages.{EpochSend};
ghost use Rattle.eris_law_epoch.specs.Causes.{Cause, IsWorldLater};
ghost use Rattle.eris_law_epoch.specs.EpochWorlds.{EpochSystem, EpochEvent, moment};
ghost use Rattle.eris_law_epoch.specs.Fine.{known_in, IsFineReplica, IsFineMessage};
ghost use Rattle.eris_law_epoch.specs.Members.{In};
ghost use Rattle.eris_law_epoch.specs.Reading.{replica_then};
ghost use Rattle.eris_law_epoch.specs.Stamped.{IsStampingOf};

/// Within an epoch nothing is undone between two moments: views and settled numbers don't fall, and the lists of a
/// part, what is found, dropped, stamped or sent, only grow; and each message that was sent has a cause at an
/// earlier moment, which tells what held of its sender. The call does nothing; its contract is the law.
pub fn nothing_is_undone()
    ensures growth { (system : EpochSystem) (events : List EpochEvent) (j k : ℕ) → j ≤ k → IsWorldLater system (moment system events j) (moment system events k) }
    ensures cause { (system : EpochSystem) (events : List EpochEvent) (k : ℕ) (one : EpochSend) → In one (moment system events k).sent → (j : ℕ) × (j < k) × Cause system (moment system events j) (moment system events (suc j)) one }
{}

/// The numbers of an epoch's stamps on a shard are 1, 2, 3, .., each names one packet, and each packet that is held
/// or sent was stamped and stands at its number. The call does nothing; its contract is the law.
pub fn numbers_name_packets()
    ensures stamps { (system : EpochSystem) (events : List EpochEvent) (k : ℕ) → IsStampingOf system (moment system events k).stamping }
    ensures held { (system : EpochSystem) (events : List EpochEvent) (k : ℕ) (shard : ShardId) (replica : ReplicaId) → IsFineReplica system.epoch (known_in (moment system events k)) shard (replica_then system events k shard replica) }
    ensures sent { (system : EpochSystem) (events : List EpochEvent) (k : ℕ) (one : EpochSend) → In one (moment system events k).sent → IsFineMessage system.epoch (known_in (moment system events k)) one.message }
{}
