ghost use Rattle.std.specs.Prelude.{◌≡◌, ◌≤◌, ◌+◌, ◌∷◌, ◌++◌, [], ℕ, suc, List, None, length};
ghost use Rattle.rand_pcg.specs.Lcg.{Lcg};
ghost use Rattle.eris_base.specs.declared.ids.ClientId.{ClientId};
ghost use Rattle.eris_base.specs.declared.ids.ReplicaId.{ReplicaId};
ghost use Rattle.eris_base.specs.declared.ids.ShardId.{ShardId};
ghost use Rattle.eris_txn.specs.declared.op.Op.{Op};
ghost use Rattle.eris_msg.specs.declared.outgoing.Outgoing.{Outgoing};
ghost use Rattle.eris_event.specs.declared.event.Event.{Event};
ghost use Rattle.eris_law_live.specs.FirstDeliveries.{firsts};
ghost use Rattle.eris_live_list.specs.LiveJournals.{AreMarks, Serves, alarms, before_round, begin_of, others, round_of, submissions_of};
ghost use Rattle.eris_live_list.specs.LiveLists.{after_words, draw, draws_of, live_list, submission, submissions_from};

/// A client's live list of more rounds begins with that of fewer, and each round adds what is
/// submitted at the next draw; and a live list is all submissions of its client. The call does
/// nothing; its contract is the law.
pub fn lists_begin_each_other()
    ensures more { (client : ClientId) (from : Lcg) (count : ℕ) → submissions_from client from (suc count) ≡ submissions_from client from count ++ submission client (draw 2 (after_words count from)) ∷ [] }
    ensures parts { (seed : ℕ) (client : ClientId) (some more : ℕ) → live_list seed client (some + more) ≡ live_list seed client some ++ submissions_from client (after_words some (draws_of seed client)) more }
    ensures long { (seed : ℕ) (client : ClientId) (rounds : ℕ) → length (live_list seed client rounds) ≡ rounds }
    ensures own { (seed : ℕ) (client : ClientId) (rounds : ℕ) → submissions_of client (live_list seed client rounds) ≡ live_list seed client rounds }
{}

/// The events before a round and those of the round are those before the next. The call does
/// nothing; its contract is the law.
pub fn rounds_are_cut()
    ensures { (marks : List ℕ) (round : ℕ) (journal : List Event) → begin_of marks round ≤ begin_of marks (suc round) → before_round marks (suc round) journal ≡ before_round marks round journal ++ round_of marks round journal }
{}

/// Each event of a journal is a first delivery or is counted among the others; and what is counted
/// of a list is what is counted of its parts. The call does nothing; its contract is the law.
pub fn journals_are_counted()
    ensures all { (before events : List Event) → firsts before events + others before events ≡ length events }
    ensures others { (before some more : List Event) → others before (some ++ more) ≡ others before some + others (before ++ some) more }
    ensures alarms { (some more : List Event) → alarms (some ++ more) ≡ alarms some + alarms more }
    ensures submissions { (client : ClientId) (some more : List Event) → submissions_of client (some ++ more) ≡ submissions_of client some ++ submissions_of client more }
{}

/// Of small journals, by hand: what is counted in one, and the rounds into which marks cut it. The
/// call does nothing; its contract is the law.
pub fn small_journals_are_cut_and_counted()
    ensures others { others [] (Event.Deliver 0 None ∷ Event.Deliver 0 None ∷ Event.Nudge ∷ Event.Deliver 1 None ∷ []) ≡ 2 }
    ensures alarms { (shard : ShardId) (replica : ReplicaId) → alarms (Event.Suspect shard replica ∷ Event.Nudge ∷ Event.Replace ∷ []) ≡ 2 }
    ensures submissions { (some more : ClientId) (ops : List Op) → some.0 ≡ 0 → more.0 ≡ 1 → submissions_of more (Event.Submit some ops ∷ Event.Nudge ∷ Event.Submit more ops ∷ Event.Retry more 1 ∷ []) ≡ Event.Submit more ops ∷ [] }
    ensures first { (a b c : Event) → round_of (2 ∷ 2 ∷ 3 ∷ []) 0 (a ∷ b ∷ c ∷ []) ≡ a ∷ b ∷ [] }
    ensures empty { (a b c : Event) → round_of (2 ∷ 2 ∷ 3 ∷ []) 1 (a ∷ b ∷ c ∷ []) ≡ [] }
    ensures last { (a b c : Event) → round_of (2 ∷ 2 ∷ 3 ∷ []) 2 (a ∷ b ∷ c ∷ []) ≡ c ∷ [] }
    ensures marks { AreMarks 3 3 (2 ∷ 2 ∷ 3 ∷ []) }
    ensures served { (one : Outgoing) → Serves (one ∷ []) (one ∷ []) [] (Event.Nudge ∷ Event.Deliver 0 None ∷ []) one.to }
{}
