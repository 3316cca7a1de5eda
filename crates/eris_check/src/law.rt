ghost use Rattle.std.specs.Prelude.{ℕ, List, []};
ghost use Rattle.eris_check.specs.ReportTexts.{AreJudged, IsFirstMisfit};

/// Any bytes are the text of one report in range at most. They have a first misfit exactly where
/// they are the text of none, and then one only; docs/SCRIPT.md says what these are, under "Reports
/// that are read". The call does nothing; its contract is the law.
pub fn bytes_are_judged()
    ensures { (bytes : List ℕ) → AreJudged bytes }
{}

/// The first misfit of no bytes at all is line 1. The call does nothing; its contract is the law.
pub fn no_bytes_misfit_at_one()
    ensures { IsFirstMisfit [] 1 }
{}
