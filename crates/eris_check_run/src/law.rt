ghost use Rattle.std.specs.Prelude.{◌≡◌, ◌≤◌, ℕ, List, length};
ghost use Rattle.eris_audit.specs.IsSerial.{IsSerial};
ghost use Rattle.eris_audit.specs.Lines.{lines_of};
ghost use Rattle.eris_check.specs.ReportTexts.{IsTextOf};
ghost use Rattle.eris_check_run.specs.Checks.{IsChecked, check_limit};
ghost use Rattle.eris_check_run.specs.VerdictTexts.{yes_text};
ghost use Rattle.eris_event.specs.declared.report.Report.{Report};
ghost use Rattle.eris_status.specs.declared.status.Status.{Status};
ghost use Rattle.eris_status.specs.declared.status.Status.TheVariants.{Done};

use eris_check::bytes_are_judged;

/// WHICH STATUS AND TEXT THE BYTES OF A REPORT ARE DUE. The text of a report in range that is
/// serial in its order is due `Done` and `yes`, where it isn't longer than a report may be; and no
/// bytes are due two statuses, or two texts. The call does nothing; its contract is the law.
#[tactic(auto, using(crate::proofs::Judging::serial_passes, crate::proofs::Judging::one_status))]
pub fn ranged_reports_pass()
    ensures passes { (bytes : List ℕ) (report : Report) → length bytes ≤ check_limit → IsTextOf report bytes → IsSerial report.history (lines_of report.order) → IsChecked bytes Done yes_text }
    ensures one { (bytes : List ℕ) (some other : Status) (text written : List ℕ) → IsChecked bytes some text → IsChecked bytes other written → (some ≡ other) × (text ≡ written) }
{
    bytes_are_judged();
}
