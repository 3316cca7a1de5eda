ghost use Rattle.std.specs.Prelude.{◌≡◌, ◌≤◌, ℕ, List, ◌++◌, length, Some};
ghost use Rattle.std.specs.Option.{option_map};
ghost use Rattle.eris_base.specs.declared.ids.ClientId.{ClientId};
ghost use Rattle.eris_base.specs.declared.ids.Epoch.{Epoch};
ghost use Rattle.eris_base.specs.declared.ids.ReplicaId.{ReplicaId};
ghost use Rattle.eris_base.specs.declared.ids.ShardId.{ShardId};
ghost use Rattle.eris_base.specs.ConfigLimits.{ConfigValue};
ghost use Rattle.eris_txn.specs.declared.packet.Packet.{Packet};
ghost use Rattle.eris_epoch.specs.Closing.{shard_log};
ghost use Rattle.eris_msg.specs.declared.outgoing.Outgoing.{Outgoing};
ghost use Rattle.eris_event.specs.declared.event.Event.{Event};
ghost use Rattle.eris_rules.specs.Runs.{run};
ghost use Rattle.eris_rules.specs.Happenings.{happens};
ghost use Rattle.eris_rules.specs.Worlds.{WorldState, client_at, first_world, replica_at, with_event};
ghost use Rattle.eris_law_epoch.specs.EpochWorlds.{EpochEvent, moment};
ghost use Rattle.eris_law_epoch.specs.Members.{In};
ghost use Rattle.eris_law_agreement.specs.Alone.{IsAlone, state_of, stamping_of};
ghost use Rattle.eris_law_agreement.specs.ClosedBelow.{closed_below};
ghost use Rattle.eris_law_epoch.specs.Stamped.{IsStampingOf};
ghost use Rattle.eris_law_agreement.specs.Continuing.{Continues};
ghost use Rattle.eris_law_agreement.specs.EpochRuns.{servers_at, system_of, IsEpochRun};
ghost use Rattle.eris_law_agreement.specs.NodeSteps.{client_after, client_steps, coordinator_after, coordinator_steps, event_of_step, sends_of_step, stampings_after, stampings_steps, step_of};
ghost use Rattle.eris_law_agreement.specs.OwnSteps.{after_input, input_of, own_steps};
ghost use Rattle.eris_law_agreement.specs.WorldMoments.{world_at};

/// A run by its moments: where a run gives a world, it is the world after all its events, and the first events
/// of an accepted list are an accepted list. The call does nothing; its contract is the law.
pub fn runs_have_moments()
    ensures last { (config : ConfigValue) (events : List Event) (world : WorldState) → run config events ≡ Some world → world ≡ world_at config events (length events) }
    ensures front { (config : ConfigValue) (front back : List Event) (world : WorldState) → run config (front ++ back) ≡ Some world → (middle : WorldState) × (run config front ≡ Some middle) }
{}

/// A replica's state is its own affair: an event changes it only by the step on the input that the event is to it,
/// a delivered message or a timer; and after a run it is the fold of its own steps over its own inputs, whatever the
/// other nodes did in between. The call does nothing; its contract is the law.
pub fn replicas_are_local()
    ensures one_event { (config : ConfigValue) (shard : ShardId) (replica : ReplicaId) (world : WorldState) (event : Event) → replica_at (happens config world event).replicas shard replica ≡ option_map (after_input config shard replica (input_of world event shard replica)) (replica_at world.replicas shard replica) }
    ensures run { (config : ConfigValue) (shard : ShardId) (replica : ReplicaId) (events : List Event) (k : ℕ) → replica_at (world_at config events k).replicas shard replica ≡ option_map (own_steps config events shard replica k) (replica_at (first_world config).replicas shard replica) }
{}

/// Each event is one step of one node, or none; and so are the coordinator, the sequencers and each client: an event
/// changes it only where the step is its own, and after a run it is the fold of its own steps, whatever the others did
/// in between. The call does nothing; its contract is the law.
pub fn nodes_are_local()
    ensures coordinator { (config : ConfigValue) (world : WorldState) (event : Event) → (happens config world event).coordinator ≡ coordinator_after config world.coordinator (step_of world event) }
    ensures sequencers { (config : ConfigValue) (world : WorldState) (event : Event) → (happens config world event).stampings ≡ stampings_after config world.stampings (step_of world event) }
    ensures client { (config : ConfigValue) (client : ClientId) (world : WorldState) (event : Event) → client_at (happens config world event).clients client ≡ option_map (client_after config client (step_of world event)) (client_at world.clients client) }
    ensures coordinator_run { (config : ConfigValue) (events : List Event) (k : ℕ) → (world_at config events k).coordinator ≡ coordinator_steps config events k (first_world config).coordinator }
    ensures sequencers_run { (config : ConfigValue) (events : List Event) (k : ℕ) → (world_at config events k).stampings ≡ stampings_steps config events k (first_world config).stampings }
    ensures client_run { (config : ConfigValue) (client : ClientId) (events : List Event) (k : ℕ) → client_at (world_at config events k).clients client ≡ option_map (client_steps config events client k) (client_at (first_world config).clients client) }
{}

/// What was sent, and what happened at the clients, only grows at its end: by what the step of the event sends, and by
/// the event of the client that stepped, if there is one. The call does nothing; its contract is the law.
pub fn lists_only_grow()
    ensures sent_by_one { (config : ConfigValue) (world : WorldState) (event : Event) → (happens config world event).sent ≡ world.sent ++ sends_of_step config world (step_of world event) }
    ensures history_by_one { (config : ConfigValue) (world : WorldState) (event : Event) → (happens config world event).history ≡ with_event world.history (event_of_step config world (step_of world event)) }
    ensures sent { (config : ConfigValue) (events : List Event) (j k : ℕ) → j ≤ k → Continues (world_at config events j).sent (world_at config events k).sent }
    ensures history { (config : ConfigValue) (events : List Event) (j k : ℕ) → j ≤ k → Continues (world_at config events j).history (world_at config events k).history }
{}

/// In every epoch of a run, at every moment, the stamps of a shard have the numbers 1, 2, 3, .., in the order of
/// stamping, and none of them twice; and each stamp names exactly the participants of its body. The call does nothing;
/// its contract is the law.
pub fn stamps_are_numbered()
    ensures numbered { (config : ConfigValue) (events : List Event) (k : ℕ) (epoch : Epoch) → IsStampingOf (system_of config events k epoch) (stamping_of config (servers_at config events k).stampings epoch) }
{}

/// Over any two moments of a run: no replica's epoch or promise falls, nor does the current epoch or the target;
/// what was sent and what was stamped stays; and what is closed below the current epoch stays as it is. At every
/// moment nobody is in an epoch above the current one, and what a replica has of the epochs before its own is its
/// shard's log of what was closed below it. The call does nothing; its contract is the law.
pub fn epochs_never_fall()
    ensures epoch { (config : ConfigValue) (events : List Event) (shard : ShardId) (replica : ReplicaId) (j k : ℕ) → j ≤ k → (state_of (servers_at config events j).replicas shard replica).epoch.0 ≤ (state_of (servers_at config events k).replicas shard replica).epoch.0 }
    ensures promise { (config : ConfigValue) (events : List Event) (shard : ShardId) (replica : ReplicaId) (j k : ℕ) → j ≤ k → (state_of (servers_at config events j).replicas shard replica).promised.0 ≤ (state_of (servers_at config events k).replicas shard replica).promised.0 }
    ensures current { (config : ConfigValue) (events : List Event) (j k : ℕ) → j ≤ k → (servers_at config events j).coordinator.current.0 ≤ (servers_at config events k).coordinator.current.0 }
    ensures target { (config : ConfigValue) (events : List Event) (j k : ℕ) → j ≤ k → (servers_at config events j).coordinator.target.0 ≤ (servers_at config events k).coordinator.target.0 }
    ensures sent { (config : ConfigValue) (events : List Event) (one : Outgoing) (j k : ℕ) → j ≤ k → In one (servers_at config events j).sent → In one (servers_at config events k).sent }
    ensures stamped { (config : ConfigValue) (events : List Event) (epoch : Epoch) (packet : Packet) (j k : ℕ) → j ≤ k → In packet (stamping_of config (servers_at config events j).stampings epoch).stamped → In packet (stamping_of config (servers_at config events k).stampings epoch).stamped }
    ensures closed { (config : ConfigValue) (events : List Event) (epoch : Epoch) (j k : ℕ) → j ≤ k → epoch.0 ≤ (servers_at config events j).coordinator.current.0 → closed_below epoch (servers_at config events k).coordinator.closed ≡ closed_below epoch (servers_at config events j).coordinator.closed }
    ensures within { (config : ConfigValue) (events : List Event) (k : ℕ) (shard : ShardId) (replica : ReplicaId) → (state_of (servers_at config events k).replicas shard replica).epoch.0 ≤ (servers_at config events k).coordinator.current.0 }
    ensures prior { (config : ConfigValue) (events : List Event) (k : ℕ) (shard : ShardId) (replica : ReplicaId) → (state_of (servers_at config events k).replicas shard replica).prior ≡ shard_log (closed_below (state_of (servers_at config events k).replicas shard replica).epoch (servers_at config events k).coordinator.closed) shard }
{}

/// Each epoch of a run is a run of the machine of one epoch: there is one event of that machine for each event of
/// the run, so that at each moment the epoch looks in the run as that machine does; whoever promised a higher
/// epoch stays in it as it was, and so does the coordinator once a higher epoch is current. So whatever holds of
/// every run of one epoch holds in each epoch of every run. The call does nothing; its contract is the law.
pub fn each_epoch_is_a_run()
    ensures reduction { (config : ConfigValue) (events : List Event) (last : ℕ) (epoch : Epoch) → (own : List EpochEvent) × IsEpochRun config events last epoch last own }
    ensures reached { (config : ConfigValue) (events : List Event) (k : ℕ) (epoch : Epoch) → (own : List EpochEvent) × IsAlone (system_of config events k epoch) (servers_at config events k) (moment (system_of config events k epoch) own k) }
{}
