ghost use Rattle.std.specs.Prelude.{◌≡◌, ◌≤◌, false, IfOk};
ghost use Rattle.eris_drill.specs.DrillLines.{bank};
ghost use Rattle.eris_drill.specs.DrillText.{drill_text};
ghost use Rattle.eris_drill_run.specs.Days.{IsDueDay, IsSummaryOf, line_count};

use eris_base::{NoMemory, Row};
use eris_drill::{drill_lines, drill_script, print_summary, total};
use eris_law_drill::drills_are_scripts;
use eris_law_drill_run::{drills_are_taken, drills_end, drills_keep_their_money};
use eris_run::run_bytes;
use eris_status::{Due, Status, Stop, refuse_line};
use eris_world::World;
use std::alloc::Global;

// How many lines the script has, its header among them.
#[tactic(auto, using(crate::proofs::LineCounts::lines_few))]
fn count_lines(alloc: Global, number: u32) -> Result<u32, NoMemory>
    requires some { 1 ≤ number }
    requires few { number ≤ 500 }
    ensures { IfOk result (λ count. count ≡ line_count number) }
{
    let lines = drill_lines(alloc, number)?;
    Ok(lines.len() as u32 + 1)
}

// The summary of the day after which the world is this.
fn summary_of(alloc: Global, number: u32, world: &World) -> Result<Row<u8>, NoMemory>
    requires some { 1 ≤ number }
    requires few { number ≤ 500 }
    requires unspent { world.now.spent ≡ false }
    requires bank { world.now.config ≡ bank }
    ensures { IfOk result (IsSummaryOf number world.now.state) }
{
    let lines = count_lines(alloc, number)?;
    let report = world.report()?;
    let money = total(alloc, &report)?;
    print_summary(alloc, number, lines, &report, money)
}

// Nobody needs the world.
fn leave(_world: World) {}

// What is due for a day after which the world is this.
fn close_day(alloc: Global, number: u32, world: World) -> Result<Due, NoMemory>
    requires some { 1 ≤ number }
    requires few { number ≤ 500 }
    requires unspent { world.spent ≡ false }
    requires bank { world.config ≡ bank }
    ensures { IfOk result (λ due. (due.status ≡ Status.Done) × IsSummaryOf number world.state due.text) }
{
    let summary = summary_of(alloc, number, &world);
    leave(world);
    let text = summary?;
    Ok(Due {
        status: Status::Done,
        text,
    })
}

// What is due for the bytes of the drill's script.
fn run_day(alloc: Global, number: u32, script: &[u8]) -> Result<Due, NoMemory>
    requires some { 1 ≤ number }
    requires few { number ≤ 500 }
    requires script { script.now ≡ drill_text number }
    ensures { IfOk result (IsDueDay number) }
{
    drills_are_scripts();
    drills_are_taken();
    drills_end();
    drills_keep_their_money();
    match run_bytes(alloc, script) {
        Ok(world) => close_day(alloc, number, world),
        Err(Stop::Refused(refused)) => refuse_line(alloc, refused),
        Err(Stop::NoMemory) => Err(NoMemory),
    }
}

/// What is due for the drill of this number, 1 to 500, whose script is made from the number and run as a script
/// is: `Done` and the summary of its day; or `TooLarge` with the first line of the script whose event would send
/// more than may be sent, and then that is told.
///
/// # Errors
///
/// [`NoMemory`] where an allocation was refused.
pub fn drill_due(alloc: Global, number: u32) -> Result<Due, NoMemory>
    requires some { 1 ≤ number }
    requires few { number ≤ 500 }
    ensures { IfOk result (IsDueDay number) }
{
    let script = drill_script(alloc, number)?;
    run_day(alloc, number, script.as_slice())
}
