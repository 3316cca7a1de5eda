ghost use Rattle.std.specs.Prelude.{◌≡◌, ℕ, true, List, [], ◌∷◌};
ghost use Rattle.eris_base.specs.declared.ids.Phase.{Phase};
ghost use Rattle.eris_txn.specs.declared.answer.Answer.{Answer};
ghost use Rattle.eris_txn.specs.declared.op.Op.TheVariants.{Get, Put};
ghost use Rattle.eris_txn.specs.declared.op.OpAnswer.{OpAnswer};
ghost use Rattle.eris_law_evidence.specs.Fronts.{IsSaidFrom};
ghost use Rattle.eris_law_evidence.specs.Heard.{WasAnswered};
ghost use Rattle.eris_law_schedules.specs.Schedules.{a, answered, at_end, drops_then_changes, goes_on, is_accepted, order_ids, sent_then, settled_ids, settles_first, shard, skips, stamped_ids, submitted, told, txn, with_faults, without_learner};

/// A drop and a settlement in an older epoch, and an earlier sequencer that goes on: what was settled in epoch 0 is
/// how the order begins in epoch 1 too, and what the sequencer of epoch 0 stamps last is no part of the order. The
/// call does nothing; its contract is the law.
pub fn sequencers_go_on()
    ensures accepted { is_accepted 0 goes_on ≡ true }
    ensures lengths { told 0 settles_first 0 ≡ 0 ∷ 0 ∷ 2 ∷ 2 ∷ [] }
    ensures settled { settled_ids 0 settles_first 0 ≡ txn 2 ∷ [] }
    ensures began { told 0 goes_on 0 ≡ 1 ∷ 0 ∷ 1 ∷ 0 ∷ [] }
    ensures history { (at_end 0 goes_on).history ≡ submitted 1 (Put a 1) ∷ submitted 2 (Put a 2) ∷ answered 2 OpAnswer.Done ∷ submitted 3 (Get a) ∷ answered 3 (OpAnswer.Value 2) ∷ submitted 4 (Put a 9) ∷ [] }
    ensures stamped { stamped_ids 0 goes_on ≡ (txn 1 ∷ txn 2 ∷ txn 4 ∷ []) ∷ (txn 3 ∷ []) ∷ [] }
    ensures order { order_ids 0 goes_on ≡ txn 2 ∷ txn 3 ∷ [] }
{}

/// An epoch is skipped: what was answered before it is read after it. The call does nothing; its contract is the law.
pub fn epochs_are_skipped()
    ensures accepted { is_accepted 0 skips ≡ true }
    ensures history { (at_end 0 skips).history ≡ submitted 1 (Put a 1) ∷ answered 1 OpAnswer.Done ∷ submitted 2 (Get a) ∷ answered 2 (OpAnswer.Value 1) ∷ [] }
    ensures stamped { stamped_ids 0 skips ≡ (txn 1 ∷ []) ∷ [] ∷ (txn 2 ∷ []) ∷ [] }
    ensures began { told 0 skips 0 ≡ 2 ∷ 0 ∷ 1 ∷ 0 ∷ [] }
{}

/// An epoch is closed by a quorum without its learner, which had answered and crashed: the answered packet outlives
/// the epoch. The call does nothing; its contract is the law.
pub fn quorums_close_without_learners()
    ensures accepted { is_accepted 1 without_learner ≡ true }
    ensures history { (at_end 1 without_learner).history ≡ submitted 1 (Put a 7) ∷ answered 1 OpAnswer.Done ∷ submitted 2 (Get a) ∷ answered 2 (OpAnswer.Value 7) ∷ [] }
    ensures crashed { told 1 without_learner 0 ≡ 0 ∷ 0 ∷ 1 ∷ 0 ∷ [] }
    ensures other { told 1 without_learner 2 ≡ 1 ∷ 1 ∷ 1 ∷ 0 ∷ [] }
    ensures order { order_ids 1 without_learner ≡ txn 1 ∷ txn 2 ∷ [] }
{}

/// A view changes after a drop, in a later epoch, and all is settled there. The call does nothing; its contract is the
/// law.
pub fn views_change_after_drops()
    ensures accepted { is_accepted 1 drops_then_changes ≡ true }
    ensures history { (at_end 1 drops_then_changes).history ≡ submitted 1 (Put a 1) ∷ submitted 2 (Put a 2) ∷ answered 2 OpAnswer.Done ∷ submitted 3 (Get a) ∷ answered 3 (OpAnswer.Value 2) ∷ [] }
    ensures learner { told 1 drops_then_changes 1 ≡ 1 ∷ 1 ∷ 3 ∷ 3 ∷ [] }
    ensures settled { settled_ids 1 drops_then_changes 2 ≡ txn 2 ∷ txn 3 ∷ [] }
    ensures order { order_ids 1 drops_then_changes ≡ txn 2 ∷ txn 3 ∷ [] }
{}

/// The premise of the law of answers is met: in the third of these runs the shard was answered by a quorum after four
/// events, so it gives this answer over the order ever after. The call does nothing; its contract is the law.
pub fn answers_are_said_ever_after()
    ensures answered { WasAnswered (with_faults 1) sent_then shard (txn 1) Phase.Whole (Answer.Ops (OpAnswer.Done ∷ [])) }
    ensures said { IsSaidFrom (with_faults 1) without_learner 4 shard (txn 1) Phase.Whole (Answer.Ops (OpAnswer.Done ∷ [])) }
{}
