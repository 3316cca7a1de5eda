ghost use Rattle.std.specs.Prelude.{◌≤◌, length, IfOk};
ghost use Rattle.eris_migrate_run.specs.Migrates.{IsMigrateDue};
ghost use Rattle.eris_run.specs.Calls.{input_limit};

use eris_base::NoMemory;
use eris_law_migrate::migrated_scripts_mean_the_same;
use eris_law_reasons::lines_are_refused_by_the_grammar;
use eris_migrate::{MigrateFault, migrate};
use eris_run::INPUT_LIMIT;
use eris_status::{Due, Refused, Status, Why, refuse_input, refuse_line};
use std::alloc::Global;

/// What is due for these bytes, which are read as a script of version 1: `Done` and the script in the
/// spelling of version 2; `BadScript` and `bad script: line L REASON` with the first line that isn't
/// read as one of version 1; `TooLarge` with line 0 and `too large: input` where the bytes are more
/// than [`INPUT_LIMIT`]. Nothing is run, so no state of a system refuses a line. docs/SCRIPT.md has
/// both versions side by side.
///
/// # Errors
///
/// [`NoMemory`] where an allocation was refused.
#[tactic(auto, using(crate::proofs::Migrating::scripts_past))]
pub fn migrate_due(alloc: Global, bytes: &[u8]) -> Result<Due, NoMemory>
    ensures { IfOk result (IsMigrateDue bytes.now) }
{
    if bytes.len() > INPUT_LIMIT {
        return refuse_input(alloc);
    }
    migrate_script(alloc, bytes)
}

// What is due for bytes that are few enough to be a script.
fn migrate_script(alloc: Global, bytes: &[u8]) -> Result<Due, NoMemory>
    requires { length bytes.now ≤ input_limit }
    ensures { IfOk result (IsMigrateDue bytes.now) }
{
    migrated_scripts_mean_the_same();
    lines_are_refused_by_the_grammar();
    match migrate(alloc, bytes) {
        Ok(text) => Ok(Due {
            status: Status::Done,
            text,
        }),
        Err(MigrateFault::Bad { line, reason }) => refuse_line(
            alloc,
            Refused {
                line,
                why: Why::Reason(reason),
            },
        ),
        Err(MigrateFault::NoMemory) => Err(NoMemory),
    }
}
