ghost use Rattle.std.specs.Prelude.{◌≡◌, ℕ, List, ◌++◌, Ok, Some, IsTrue};
ghost use Rattle.eris_base.specs.ConfigLimits.{ConfigValue};
ghost use Rattle.eris_audit.specs.IsSerial.{IsSerial};
ghost use Rattle.eris_audit.specs.Lines.{lines_of};
ghost use Rattle.eris_event.specs.declared.event.Event.{Event};
ghost use Rattle.eris_event.specs.EventRanges.{fits_event};
ghost use Rattle.eris_rules.specs.Good.{Good};
ghost use Rattle.eris_rules.specs.Reports.{report_of};
ghost use Rattle.eris_rules.specs.Runs.{run};
ghost use Rattle.eris_rules.specs.Worlds.{WorldState};
ghost use Rattle.eris_law_agreement.specs.WorldMoments.{world_at};
ghost use Rattle.eris_law_course.specs.Accepted.{AreEventsFit, IsAccepted, IsEventFit};
ghost use Rattle.eris_law_good.specs.Evident.{HasEvidence};

/// THE HEADLINE'S LAW. Take any config and any list of events that the run accepts, in which whatever is submitted can be
/// run. Then the world is good: what happened at its clients is serial in its order, and what each replica has settled,
/// be it crashed or not, is how that order begins on its shard. The first events of an accepted list are an accepted
/// list, so this holds at every moment of the run. Of a good world what is
/// reported to have happened is serial in the order that is reported. The call does nothing; its contract is the law.
pub fn every_run_is_good()
    ensures good { (config : ConfigValue) (events : List Event) → AreEventsFit events → (world : WorldState) → run config events ≡ Some world → Good world }
    ensures front { (config : ConfigValue) (front back : List Event) → AreEventsFit (front ++ back) → (world : WorldState) → run config (front ++ back) ≡ Some world → (middle : WorldState) × (run config front ≡ Some middle) × Good middle }
    ensures moment { (config : ConfigValue) (events : List Event) → IsAccepted config events → AreEventsFit events → (k : ℕ) → Good (world_at config events k) }
    ensures reported { (config : ConfigValue) (world : WorldState) → Good world → IsSerial (report_of config world).history (lines_of (report_of config world).order) }
{}

/// What the law rests on: at every moment there is evidence for the history, by the order of that moment. The call does
/// nothing; its contract is the law.
pub fn runs_have_evidence()
    ensures evidence { (config : ConfigValue) (events : List Event) → IsAccepted config events → AreEventsFit events → (k : ℕ) → HasEvidence config events k }
{}

/// What an event in the ranges of events submits can be run. The call does nothing; its contract is the law.
pub fn ranged_events_are_fit()
    ensures ranged { (version : ℕ) (event : Event) → IsTrue (fits_event version event) → IsEventFit event }
{}
