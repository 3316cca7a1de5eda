ghost use Rattle.std.specs.Prelude.{◌≡◌, ℕ, Option, Some, Ok, List, ◌++◌};
ghost use Rattle.std.specs.List.{flat_map};
ghost use Rattle.eris_base.specs.declared.ids.ClientId.{ClientId};
ghost use Rattle.eris_base.specs.declared.ids.TxnId.{TxnId};
ghost use Rattle.eris_base.specs.ConfigLimits.{ConfigValue};
ghost use Rattle.eris_txn.specs.declared.history.HistoryEvent.{HistoryEvent};
ghost use Rattle.eris_txn.specs.declared.op.Op.{Op};
ghost use Rattle.eris_txn.specs.declared.txn.Txn.{Txn};
ghost use Rattle.eris_event.specs.declared.event.Event.{Event};
ghost use Rattle.eris_rules.specs.Runs.{run};
ghost use Rattle.eris_rules.specs.Worlds.{WorldState, first_world};
ghost use Rattle.eris_law_epoch.specs.Members.{In};
ghost use Rattle.eris_law_course.specs.Accepted.{AreEventsFit};
ghost use Rattle.eris_law_calm.specs.Calm.{IsCalm};
ghost use Rattle.eris_law_undisturbed.specs.Undisturbed.{AreAnswered, IsUndisturbed};

/// An undisturbed run answers each transaction that it submits: every packet is delivered once, in the order of
/// sending; no timer runs; at most f replicas of each shard crash, and never its first; and at the end as many packets
/// are delivered as the submissions can cause. So do the first events of any list, where these are undisturbed: their
/// transactions are still answered at its end, whatever comes behind them. Of a list of events it is asked that what they
/// submit can be run. The call does nothing;
/// its contract is the law.
pub fn undisturbed_runs_answer()
    ensures answers { (config : ConfigValue) (events : List Event) (world : WorldState) → IsUndisturbed config events → AreEventsFit events → run config events ≡ Some world → AreAnswered world.history world.history }
    ensures first { (config : ConfigValue) (events more : List Event) (world : WorldState) → IsUndisturbed config events → AreEventsFit events → run config (events ++ more) ≡ Some world → (middle : WorldState) × (run config events ≡ Some middle) × AreAnswered middle.history world.history }
    ensures submitted { (config : ConfigValue) (events : List Event) (world : WorldState) → IsUndisturbed config events → AreEventsFit events → run config events ≡ Some world → (client : ClientId) (ops : List Op) → In (Event.Submit client ops) events → (id : TxnId) × (id.client ≡ client) × In (HistoryEvent.Submit id (Txn.Whole ops)) world.history }
{}

/// At the start nothing waits and nobody is down, so the world is such as it stays in a run that nothing disturbs. The call
/// does nothing; its contract is the law.
pub fn first_world_is_calm()
    ensures start { (config : ConfigValue) → IsCalm config (λ shard. 0) 0 (first_world config) }
{}
