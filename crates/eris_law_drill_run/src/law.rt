ghost use Rattle.std.specs.Prelude.{◌≡◌, ◌≤◌, ◌+◌, ℕ, Some, List, ◌++◌, ◌∷◌, count_by, Ok, Err};
ghost use Rattle.std.specs.List.{flat_map};
ghost use Rattle.eris_event.specs.declared.event.Event.{Event};
ghost use Rattle.eris_grammar.specs.Scripts.{events_of};
ghost use Rattle.eris_rules.specs.Good.{Good};
ghost use Rattle.eris_rules.specs.Happenings.{happens};
ghost use Rattle.eris_rules.specs.Refusals.{limit_met, refusal};
ghost use Rattle.eris_rules.specs.Reports.{report_of};
ghost use Rattle.eris_rules.specs.Runs.{run};
ghost use Rattle.eris_rules.specs.Worlds.{WorldState, first_world};
ghost use Rattle.eris_law_course.specs.Accepted.{IsAccepted};
ghost use Rattle.eris_law_undisturbed.specs.Undisturbed.{AreAnswered, IsUndisturbed};
ghost use Rattle.eris_law_script.specs.UndisturbedScripts.{AreUndisturbed};
ghost use Rattle.eris_drill.specs.DrillLines.{bank, opening};
ghost use Rattle.eris_drill.specs.Summaries.{IsTotal, is_submit, values_left};
ghost use Rattle.eris_law_drill.specs.BankHistories.{IsBankHistory};
ghost use Rattle.eris_law_drill.specs.Reading.{drill_events};
ghost use Rattle.eris_law_drill_run.specs.Submissions.{drill_submissions, submissions};
ghost use Rattle.eris_law_drill_run.specs.Takings.{AreTaken};
ghost use Rattle.eris_event.specs.declared.limit.Limit.{Limit};
ghost use Rattle.eris_status.specs.declared.refused.Stop.{Stop};
ghost use Rattle.eris_status.specs.declared.refused.Stop.TheVariants as stops;
ghost use Rattle.eris_status.specs.declared.refused.Why.TheVariants as why;
ghost use Rattle.eris_run.specs.ScriptRuns.{Ran, outcome};
ghost use Rattle.eris_drill.specs.DrillText.{drill_text};

/// The opening of a drill is undisturbed: 16 puts, and as many deliveries as these can cause packets. So every put that it
/// submits is answered at its end. The call does nothing; its contract is the law.
pub fn openings_are_undisturbed()
    ensures lines { AreUndisturbed bank opening }
    ensures events { IsUndisturbed bank (flat_map events_of opening) }
    ensures answered { (middle : WorldState) → run bank (flat_map events_of opening) ≡ Some middle → AreAnswered middle.history middle.history }
{}

/// No event of a drill has a cause to be refused: clients, shards and replicas are the bank's, a timer's replica is up, and
/// a client asks again only for what it submitted. So where an event of it is refused, a limit is met of what may be sent.
/// The call does nothing; its contract is the law.
pub fn drills_are_taken()
    ensures taken { (number : ℕ) → AreTaken bank (first_world bank) (drill_events number) }
    ensures accepted { (number : ℕ) → IsAccepted bank (drill_events number) }
    ensures limits { (number : ℕ) (front : List Event) (event : Event) (back : List Event) (world : WorldState) → drill_events number ≡ front ++ event ∷ back → run bank front ≡ Some world → refusal bank world event ≡ limit_met (happens bank world event).sent }
{}

/// A run of a drill keeps its money. What is submitted in it are the 16 puts and then the transactions of its turns, each
/// by the client whose turn it is; so it submits 16 more than it has turns. Its history is a bank's: the puts are answered
/// before a turn is submitted. The world is good; so the total of what its order leaves is 16000. The call does nothing;
/// its contract is the law.
pub fn drills_keep_their_money()
    ensures submitted { (number : ℕ) (world : WorldState) → run bank (drill_events number) ≡ Some world → submissions world.history ≡ drill_submissions number }
    ensures count { (number : ℕ) (world : WorldState) → run bank (drill_events number) ≡ Some world → count_by is_submit world.history ≡ 16 + number }
    ensures history { (number : ℕ) (world : WorldState) → run bank (drill_events number) ≡ Some world → IsBankHistory world.history }
    ensures good { (number : ℕ) → number ≤ 500 → (world : WorldState) → run bank (drill_events number) ≡ Some world → Good world }
    ensures total { (number : ℕ) → number ≤ 500 → (world : WorldState) → run bank (drill_events number) ≡ Some world → (total : ℕ) → IsTotal (values_left (report_of bank world)) total → total ≡ 16000 }
{}

/// What comes of the bytes of a drill of at most 500 turns. Where it is a world, it is that of the bank after the drill's
/// events; and a line is refused only because a limit is met of what may be sent, never by the grammar or for another
/// cause. The call does nothing; its contract is the law.
pub fn drills_end()
    ensures ran { (number : ℕ) → number ≤ 500 → (ran : Ran) → outcome (drill_text number) ≡ Ok ran → (ran.config ≡ bank) × (run bank (drill_events number) ≡ Some ran.world) }
    ensures limit { (number : ℕ) → number ≤ 500 → (stop : Stop) → outcome (drill_text number) ≡ Err stop → (line : ℕ) × (limit : Limit) × (stop ≡ stops.Refused (record { line = line; why = why.Limit limit })) }
    ensures accepted { (number : ℕ) → number ≤ 500 → (world : WorldState) → run bank (drill_events number) ≡ Some world → outcome (drill_text number) ≡ Ok (record { config = bank; world = world }) }
{}
