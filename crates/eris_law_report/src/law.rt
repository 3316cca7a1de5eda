ghost use Rattle.std.specs.Prelude.{◌≡◌, ◌<◌, ◌^◌, ℕ, List, length, Ok, Some, IsTrue};
ghost use Rattle.std.specs.List.{list_all};
ghost use Rattle.eris_base.specs.ConfigLimits.{ConfigValue, IsConfig};
ghost use Rattle.eris_event.specs.declared.event.Event.{Event};
ghost use Rattle.eris_event.specs.EventRanges.{fits_event};
ghost use Rattle.eris_grammar.specs.Scripts.{Script, script};
ghost use Rattle.eris_report_range.specs.ReportRanges.{IsRangedReport};
ghost use Rattle.eris_rules.specs.Reports.{report_of};
ghost use Rattle.eris_rules.specs.Runs.{run};
ghost use Rattle.eris_rules.specs.Worlds.{WorldState};
ghost use Rattle.eris_law_report.specs.RangedRuns.{beginnings};

/// THE REPORT OF EVERY RUN IS IN RANGE. Take a config in its limits and a run whose events are in the ranges of a script's
/// lines, in one version or the other, and which begins fewer than 2^32 transactions and epochs. Then its report is one in
/// range: its history, its order, one line for each replica, by shard, then replica, and all counts. A script of fewer than
/// 2^32 bytes is such a run, since a line begins at most one. The call does nothing; its contract is the law.
pub fn reports_are_in_range()
    ensures run { (config : ConfigValue) → IsConfig config → (version : ℕ) (events : List Event) → IsTrue (list_all (fits_event version) events) → beginnings events < 2 ^ 32 → (world : WorldState) → run config events ≡ Some world → IsRangedReport (report_of config world) }
    ensures script { (bytes : List ℕ) (whole : Script) (world : WorldState) → length bytes < 2 ^ 32 → script bytes ≡ Ok whole → run whole.config whole.events ≡ Some world → IsRangedReport (report_of whole.config world) }
{}
