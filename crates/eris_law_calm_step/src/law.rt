ghost use Rattle.std.specs.Prelude.{◌≡◌, ◌+◌, ◌-◌, ℕ, true, Some};
ghost use Rattle.eris_base.specs.declared.ids.ShardId.{ShardId};
ghost use Rattle.eris_base.specs.ConfigLimits.{ConfigValue};
ghost use Rattle.eris_event.specs.declared.event.Event.{Event};
ghost use Rattle.eris_rules.specs.Runs.{world_after};
ghost use Rattle.eris_rules.specs.Worlds.{WorldState};
ghost use Rattle.eris_law_course.specs.Accepted.{IsEventFit};
ghost use Rattle.eris_law_calm.specs.Calm.{IsCalm};
ghost use Rattle.eris_law_calm.specs.Crashes.{one_if};
ghost use Rattle.eris_law_calm_step.specs.CalmEvents.{crashes_on, is_calm, packets_for};

/// A world in which all is on its way stays such: after any calm event that is taken and fit, with one more replica of a
/// shard down where it crashes one, and with as many more packets to come as it can cause. A delivery leaves fewer to
/// come. The call does nothing; its contract is the law.
pub fn calm_worlds_stay_calm()
    ensures event { (config : ConfigValue) (limits : ShardId → ℕ) (budget : ℕ) (world next : WorldState) (event : Event) → is_calm event ≡ true → IsEventFit event → world_after config world event ≡ Some next → IsCalm config limits budget world → IsCalm config (λ shard. limits shard + one_if (crashes_on shard event)) (budget + packets_for config event) next }
    ensures delivery { (config : ConfigValue) (limits : ShardId → ℕ) (budget : ℕ) (world next : WorldState) → world_after config world Event.Flow ≡ Some next → IsCalm config limits budget world → IsCalm config limits (budget - 1) next }
{}
