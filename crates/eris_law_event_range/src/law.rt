ghost use Rattle.std.specs.Prelude.{◌≡◌, ◌≤◌, ℕ, List, true};
ghost use Rattle.eris_base.specs.declared.config.Config.{Config};
ghost use Rattle.eris_base.specs.declared.ids.Epoch.{Epoch};
ghost use Rattle.eris_client.specs.ClientRanges.{TxnFits};
ghost use Rattle.eris_in_place.specs.MessageRanges.{SendsFit};
ghost use Rattle.eris_msg.specs.declared.message.Message.{Message};
ghost use Rattle.eris_msg.specs.Spellings.{message_fits};
ghost use Rattle.eris_sequencer.specs.declared.stamping.Stamping.{Stamping};
ghost use Rattle.eris_sequencer.specs.Asks.{ask};
ghost use Rattle.eris_sequencer.specs.StampingFacts.{AreStampings};
ghost use Rattle.eris_event.specs.EventRanges.{are_ops, is_plan};
ghost use Rattle.eris_txn.specs.declared.op.Op.{Op};
ghost use Rattle.eris_txn.specs.declared.txn.Txn.TheVariants as txns;
ghost use Rattle.eris_txn.specs.PlanValues.{PlanValue};

/// What a line submits can be submitted: its operations, and its plan, are in the ranges of the messages.
#[tactic(auto, using(crate::proofs::EventRanges::ops_are_in_range, crate::proofs::EventRanges::plan_is_in_range))]
pub fn events_are_in_range()
    ensures whole { (version : ℕ) (ops : List Op) → are_ops version ops ≡ true → TxnFits (txns.Whole ops) }
    ensures general { (version : ℕ) (plan : PlanValue) → is_plan version plan ≡ true → TxnFits (txns.General plan) }
{}

/// What a sequencer sends for a message is in the ranges of messages.
#[tactic(auto, using(crate::proofs::AskRanges::asks_are_in_range))]
pub fn asks_are_in_range()
    ensures { (config : Config) (stampings : List Stamping) (epoch : Epoch) (message : Message) → AreStampings config stampings → config.shards ≤ 64
        → message_fits message ≡ true → SendsFit (ask config stampings epoch message).sends }
{}
