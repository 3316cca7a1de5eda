ghost use Rattle.std.specs.Prelude.{◌≡◌, ◌⊎◌, ℕ, IfOk};
ghost use Rattle.eris_check_run.specs.Checks.{IsAcceptedReport, IsChecked, IsPastReports, JudgesBroken, JudgesSerial, RefusesReport};
ghost use Rattle.eris_cmd.specs.Answers.{IsAnswer, IsGoodDue, RefusesLineOf};
ghost use Rattle.eris_cmd.specs.Headline.{ReportsGoodRun};
ghost use Rattle.eris_cmd.specs.Laws.{EveryRunIsGood, FrontsAnswer, ReportsPass, UndisturbedAnswers};
ghost use Rattle.eris_drill.specs.DrillText.{drill_text};
ghost use Rattle.eris_drill_run.specs.Days.{IsAcceptedDrill, IsTextFor, MeetsLimit, SummarizesDay};
ghost use Rattle.eris_migrate_run.specs.Migrates.{IsMigratable, IsPastScripts, MigratesScript, migrate_status, migrate_text};
ghost use Rattle.eris_status.specs.declared.status.Status.TheVariants as statuses;
ghost use Rattle.eris_status.specs.Statuses.{HasText, HasVerdict, IfBadReport, IfBadScript, IfTooLarge};
ghost use Rattle.eris_run.specs.Calls.{IsAccepted, RefusesLarge, status_due, status_for, text_due};
ghost use Rattle.eris_run.specs.ScriptRuns.{outcome};

use crate::command::Command;
use eris_base::NoMemory;
use eris_check_run::{check_due, ranged_reports_pass};
use eris_drill_run::drill_due;
use eris_law_report::reports_are_in_range;
use eris_law_script::{every_script_is_good, undisturbed_scripts_answer};
use eris_migrate_run::migrate_due;
use eris_run::script_due;
use eris_status::Due;
use std::alloc::Global;

/// The core of the program: the status and the text that are due for a command and the bytes of its input, which
/// may be of any length. A command that reads nothing doesn't look at the input.
///
/// # Errors
///
/// [`NoMemory`] where an allocation was refused.
pub fn answer(alloc: Global, command: Command, input: &[u8]) -> Result<Due, NoMemory>
    // RUN. The first is the headline: the input is a script, the world after its events is good, and the text
    // is the report of that very world.
    ensures done { IfOk result (λ due. command ≡ Command.Run → due.status ≡ statuses.Done → ReportsGoodRun input.now due.text) }

    // With line 0 exactly where the input is longer than a script may be; else a line's event would send too much.
    ensures too_large { IfOk result (λ due. command ≡ Command.Run → IfTooLarge due.status (RefusesLarge input.now due.text)) }

    // The status and the text are those that the input is due; so a script of which no line is refused is
    // answered by its report.
    ensures complete { IfOk result (λ due. command ≡ Command.Run
        → (due.status ≡ status_due input.now) × (due.text ≡ text_due input.now)) }
    ensures accepts { IfOk result (λ due. command ≡ Command.Run → IsAccepted input.now due.status) }

    // RUN and MIGRATE. This is the first line that the command refuses, and the text names it.
    ensures bad_script { IfOk result (λ due. IfBadScript due.status (RefusesLineOf command input.now due.text)) }

    // CHECK. The input is the text of a report in range, whose history is serial in its order.
    ensures check_done { IfOk result (λ due. command ≡ Command.Check → due.status ≡ statuses.Done → JudgesSerial input.now due.text) }

    // It is the text of such a report, which breaks a rule: the text names the least rule and its first line.
    ensures check_no { IfOk result (λ due. due.status ≡ statuses.CheckedNo → (command ≡ Command.Check) × JudgesBroken input.now due.text) }

    // It is no report, and this is its first line that doesn't fit.
    ensures bad_report { IfOk result (λ due. IfBadReport due.status (λ line. (command ≡ Command.Check)
        × RefusesReport input.now due.text line)) }
    ensures check_too_large { IfOk result (λ due. command ≡ Command.Check → IfTooLarge due.status (IsPastReports input.now due.text)) }
    ensures check_complete { IfOk result (λ due. command ≡ Command.Check
        → IsChecked input.now due.status due.text) }
    ensures check_accepts { IfOk result (λ due. command ≡ Command.Check → IsAcceptedReport input.now due.status) }

    // MIGRATE. The input is a script of version 1, and the text is one of version 2 that means the same.
    ensures migrate_done { IfOk result (λ due. command ≡ Command.Migrate → due.status ≡ statuses.Done → MigratesScript input.now due.text) }
    ensures migrate_too_large { IfOk result (λ due. command ≡ Command.Migrate → IfTooLarge due.status (IsPastScripts input.now due.text)) }
    ensures migrate_complete { IfOk result (λ due. command ≡ Command.Migrate
        → (due.status ≡ migrate_status input.now) × (due.text ≡ migrate_text input.now)) }
    ensures migrate_accepts { IfOk result (λ due. command ≡ Command.Migrate → IsMigratable input.now due.status) }

    // DRILL. The same as of a run, of the day.
    ensures drill_done { IfOk result (λ due. (number : ℕ) → command ≡ Command.Drill number → due.status ≡ statuses.Done
        → SummarizesDay number due.text) }
    ensures drill_too_large { IfOk result (λ due. (number : ℕ) → command ≡ Command.Drill number
        → IfTooLarge due.status (MeetsLimit number due.text)) }
    ensures drill_complete { IfOk result (λ due. (number : ℕ) → command ≡ Command.Drill number
        → (due.status ≡ status_for (outcome (drill_text number))) × IsTextFor number (outcome (drill_text number)) due.text) }
    ensures drill_accepts { IfOk result (λ due. (number : ℕ) → command ≡ Command.Drill number → IsAcceptedDrill number due.status) }

    // No other status has a text.
    ensures never { IfOk result (λ due. HasText due.status ⊎ ((command ≡ Command.Check) × HasVerdict due.status)) }
{
    due_for(alloc, command, input)
}

// The same, in one record.
#[tactic(auto, using(crate::proofs::CommandAnswers::runs_answer, crate::proofs::CommandAnswers::checks_answer, crate::proofs::CommandAnswers::migrations_answer, crate::proofs::CommandAnswers::drills_answer))]
pub(crate) fn due_for(alloc: Global, command: Command, input: &[u8]) -> Result<Due, NoMemory>
    ensures { IfOk result (IsAnswer command input.now) }
{
    match command {
        Command::Run => good_run_due(alloc, input),
        Command::Check => check_due(alloc, input),
        Command::Migrate => migrate_due(alloc, input),
        Command::Drill(number) => drill_due(alloc, number.get()),
    }
}

// What is due for a script. By the laws its world is good, what it submits undisturbed is answered, and its report
// passes where it is judged.
#[tactic(auto, using(crate::proofs::Headlines::good_dues))]
fn good_run_due(alloc: Global, input: &[u8]) -> Result<Due, NoMemory>
    ensures { IfOk result (IsGoodDue input.now) }
{
    laws();
    script_due(alloc, input)
}

// The call does nothing; its contract has the laws that the headline rests on.
#[tactic(auto, using(crate::proofs::Headlines::reports_pass))]
fn laws()
    ensures good { EveryRunIsGood }
    ensures answers { UndisturbedAnswers }
    ensures answers_front { FrontsAnswer }
    ensures passes { ReportsPass }
{
    every_script_is_good();
    undisturbed_scripts_answer();
    reports_are_in_range();
    ranged_reports_pass();
}
