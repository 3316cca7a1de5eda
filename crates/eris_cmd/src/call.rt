ghost use Rattle.std.specs.Prelude.{◌≡◌, ◌⊎◌, ◌↔◌, ◌≤◌, ℕ, map, string_bytes, IfSome};
ghost use Rattle.eris_check_run.specs.Checks.{IsAcceptedReport, IsCheckStatus, IsCheckText, JudgesBroken, JudgesSerial, RefusesReport, check_limit};
ghost use Rattle.eris_cmd.specs.Commands.{IsCheck, IsDrill, IsKnown, IsMigrate, IsReader, IsRun};
ghost use Rattle.eris_cmd.specs.Headline.{ReportsGoodRun};
ghost use Rattle.eris_cmd.specs.Streams.{Answers, PassesLimit, RefusesLargeInput, StopsTelling, StopsWriting, Tells};
ghost use Rattle.eris_drill.specs.DrillText.{drill_text};
ghost use Rattle.eris_drill_run.specs.Days.{IsAcceptedDrill, MeetsLimit, SummarizesDay};
ghost use Rattle.eris_migrate_run.specs.Migrates.{IsMigratable, MigratesScript, RefusesScript, migrate_status, migrate_text};
ghost use Rattle.eris_run.specs.Calls.{IsAccepted, RefusesLine, input_limit, status_due, status_for, text_due};
ghost use Rattle.eris_run.specs.ScriptRuns.{outcome};
ghost use Rattle.eris_status.specs.Statuses.{IfBadReport, IfBadScript, IfTooLarge};
ghost use Rattle.eris_stream.specs.Faults.{Rose};

use crate::command::Command;
use crate::reading::due_of;
use eris_status::{Failure, Status, tell};
use eris_stream::{Sink, Source};
use std::alloc::Global;

/// Does what the words ask, and answers how it ended. With `run` alone the source has a script, which is run,
/// and the report of the world after it goes to the sink. With `check` alone it has a report, which is judged,
/// and the verdict goes to the sink. With `migrate` alone it has a script of version 1, and the same in the
/// spelling of version 2 goes to the sink. With `drill N`, N from 1 to 500, the drill of that number is run,
/// nothing is read, and the summary of its day goes to the sink.
///
/// It is a loop that reads, [`answer`](crate::answer) of the bytes that came, and a loop that writes the text
/// that is due. The clauses below follow; they say something where the source tells what it has left and the
/// sink what it has taken, and those of `answer` speak of the bytes and the text themselves.
///
/// Where several answers could be given, `Usage` comes first, then `ReadFault` and `TooLarge` with line 0 as
/// they come while the source is read, then the first line that is refused or the verdict, then `WriteFault` in
/// place of what couldn't be told. `NoMemory` may come in place of any answer but `Usage`. The text is made
/// whole, and room is made for it at the sink, before its first byte is written.
pub fn eris_call<S: Source, K: Sink>(
    alloc: Global,
    words: &[String],
    src: &mut S,
    snk: &mut K,
) -> Status
    // Exactly where the words are none of `run`, `check`, `migrate` alone and `drill N`; then nothing is read or
    // written.
    ensures usage { (result ≡ Status.Usage) ↔ ¬ IsKnown (map string_bytes words.now) }
    ensures usage_touches_nothing { result ≡ Status.Usage → (src.new ≡ src.old) × (snk.new ≡ snk.old) }

    // RUN. What each answer says of the bytes read and written. The first is the headline.
    ensures done { IsRun (map string_bytes words.now) → result ≡ Status.Done
        → Answers input_limit (S.left src.old) (S.left src.new) (K.taken snk.old) (K.taken snk.new) ReportsGoodRun }
    ensures too_large { IsRun (map string_bytes words.now) → IfTooLarge result
        (RefusesLargeInput (S.left src.old) (S.left src.new) (K.taken snk.old) (K.taken snk.new)) }
    ensures write_fault { IsRun (map string_bytes words.now) → result ≡ Status.WriteFault
        → Rose (K.faults snk.old) (K.faults snk.new)
        × StopsWriting input_limit (λ bytes text. text ≡ text_due bytes) (S.left src.old) (S.left src.new) (K.taken snk.old) (K.taken snk.new) }

    // CHECK. The bytes read are the text of a report in range, which is serial in its order, or which breaks the
    // rule that is told; or they are no report, and the line that is told is the first that doesn't fit.
    ensures check_done { IsCheck (map string_bytes words.now) → result ≡ Status.Done
        → Answers check_limit (S.left src.old) (S.left src.new) (K.taken snk.old) (K.taken snk.new) JudgesSerial }
    ensures check_no { result ≡ Status.CheckedNo → IsCheck (map string_bytes words.now)
        × Answers check_limit (S.left src.old) (S.left src.new) (K.taken snk.old) (K.taken snk.new) JudgesBroken }
    ensures bad_report { IfBadReport result (λ line. IsCheck (map string_bytes words.now)
        × Answers check_limit (S.left src.old) (S.left src.new) (K.taken snk.old) (K.taken snk.new)
        (λ bytes text. RefusesReport bytes text line)) }
    ensures check_too_large { IsCheck (map string_bytes words.now) → IfTooLarge result
        (PassesLimit check_limit (S.left src.old) (S.left src.new) (K.taken snk.old) (K.taken snk.new)) }
    ensures check_write_fault { IsCheck (map string_bytes words.now) → result ≡ Status.WriteFault
        → Rose (K.faults snk.old) (K.faults snk.new)
        × StopsWriting check_limit IsCheckText (S.left src.old) (S.left src.new) (K.taken snk.old) (K.taken snk.new) }

    // MIGRATE. The bytes read are a script of version 1, and those written are one of version 2 that means the same.
    ensures migrate_done { IsMigrate (map string_bytes words.now) → result ≡ Status.Done
        → Answers input_limit (S.left src.old) (S.left src.new) (K.taken snk.old) (K.taken snk.new) MigratesScript }
    ensures migrate_bad_script { IsMigrate (map string_bytes words.now) → IfBadScript result (λ line reason.
        Answers input_limit (S.left src.old) (S.left src.new) (K.taken snk.old) (K.taken snk.new)
        (λ bytes text. RefusesScript bytes text line reason)) }
    ensures migrate_too_large { IsMigrate (map string_bytes words.now) → IfTooLarge result
        (PassesLimit input_limit (S.left src.old) (S.left src.new) (K.taken snk.old) (K.taken snk.new)) }
    ensures migrate_write_fault { IsMigrate (map string_bytes words.now) → result ≡ Status.WriteFault
        → Rose (K.faults snk.old) (K.faults snk.new)
        × StopsWriting input_limit (λ bytes text. text ≡ migrate_text bytes) (S.left src.old) (S.left src.new) (K.taken snk.old) (K.taken snk.new) }

    // From which words these come.
    ensures bad_script { IfBadScript result (λ line reason.
        (IsRun (map string_bytes words.now) × Answers input_limit (S.left src.old) (S.left src.new) (K.taken snk.old) (K.taken snk.new)
        (λ bytes text. RefusesLine bytes text line reason))
        ⊎ (IsMigrate (map string_bytes words.now) × Answers input_limit (S.left src.old) (S.left src.new) (K.taken snk.old) (K.taken snk.new)
        (λ bytes text. RefusesScript bytes text line reason))) }
    ensures read_fault { result ≡ Status.ReadFault
        → IsReader (map string_bytes words.now) × Rose (S.faults src.old) (S.faults src.new) × (snk.new ≡ snk.old) }

    // DRILL. The same as of a run, of the day; nothing is read.
    ensures drill_done { (number : ℕ) → IsDrill (map string_bytes words.now) number → result ≡ Status.Done
        → Tells (K.taken snk.old) (K.taken snk.new) (SummarizesDay number) }
    ensures drill_too_large { (number : ℕ) → IsDrill (map string_bytes words.now) number
        → IfTooLarge result (λ line. Tells (K.taken snk.old) (K.taken snk.new) (λ text. MeetsLimit number text line)) }
    ensures drill_write_fault { (number : ℕ) → IsDrill (map string_bytes words.now) number → result ≡ Status.WriteFault
        → Rose (K.faults snk.old) (K.faults snk.new) × StopsTelling number (K.taken snk.old) (K.taken snk.new) }
    ensures drill_reads_nothing { (number : ℕ) → IsDrill (map string_bytes words.now) number → src.new ≡ src.old }

    ensures no_memory { result ≡ Status.NoMemory → K.taken snk.new ≡ K.taken snk.old }

    // Where neither count of faults rose, the answer is the one that all the bytes of the source are due.
    ensures complete { IsRun (map string_bytes words.now)
        → ¬ Rose (S.faults src.old) (S.faults src.new) → ¬ Rose (K.faults snk.old) (K.faults snk.new)
        → IfSome (S.left src.old) (λ left. (result ≡ status_due left) ⊎ (result ≡ Status.NoMemory)) }
    ensures check_complete { IsCheck (map string_bytes words.now)
        → ¬ Rose (S.faults src.old) (S.faults src.new) → ¬ Rose (K.faults snk.old) (K.faults snk.new)
        → IfSome (S.left src.old) (λ left. IsCheckStatus left result ⊎ (result ≡ Status.NoMemory)) }
    ensures migrate_complete { IsMigrate (map string_bytes words.now)
        → ¬ Rose (S.faults src.old) (S.faults src.new) → ¬ Rose (K.faults snk.old) (K.faults snk.new)
        → IfSome (S.left src.old) (λ left. (result ≡ migrate_status left) ⊎ (result ≡ Status.NoMemory)) }

    // So a script of which no line is refused is answered by its report, a serial report by yes, and a script of
    // version 1 by its migration.
    ensures accepts { IsRun (map string_bytes words.now)
        → ¬ Rose (S.faults src.old) (S.faults src.new) → ¬ Rose (K.faults snk.old) (K.faults snk.new)
        → IfSome (S.left src.old) (λ left. IsAccepted left result) }
    ensures check_accepts { IsCheck (map string_bytes words.now)
        → ¬ Rose (S.faults src.old) (S.faults src.new) → ¬ Rose (K.faults snk.old) (K.faults snk.new)
        → IfSome (S.left src.old) (λ left. IsAcceptedReport left result) }
    ensures migrate_accepts { IsMigrate (map string_bytes words.now)
        → ¬ Rose (S.faults src.old) (S.faults src.new) → ¬ Rose (K.faults snk.old) (K.faults snk.new)
        → IfSome (S.left src.old) (λ left. IsMigratable left result) }

    // Where the sink's count of faults didn't rise, the answer is the one that the drill is due; so a drill of
    // which no line meets a limit is answered by its summary.
    ensures drill_complete { (number : ℕ) → IsDrill (map string_bytes words.now) number
        → ¬ Rose (K.faults snk.old) (K.faults snk.new)
        → (result ≡ status_for (outcome (drill_text number))) ⊎ (result ≡ Status.NoMemory) }
    ensures drill_accepts { (number : ℕ) → IsDrill (map string_bytes words.now) number
        → ¬ Rose (K.faults snk.old) (K.faults snk.new) → IsAcceptedDrill number result }

    // The counts of faults never fall.
    ensures source_count { S.faults src.old ≤ S.faults src.new }
    ensures sink_count { K.faults snk.old ≤ K.faults snk.new }
{
    let Some(command) = Command::from_words(words) else {
        return Status::Usage;
    };
    match due_of(alloc, command, src) {
        Ok(due) => match tell(snk, due.text.as_slice()) {
            Ok(()) => due.status,
            Err(Failure::Fault) => Status::WriteFault,
            Err(Failure::NoMemory) => Status::NoMemory,
        },
        Err(Failure::Fault) => Status::ReadFault,
        Err(Failure::NoMemory) => Status::NoMemory,
    }
}
