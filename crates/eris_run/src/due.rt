ghost use Rattle.std.specs.Prelude.{◌≡◌, ◌≤◌, length, IfOk};
ghost use Rattle.eris_run.specs.Calls.{input_limit};
ghost use Rattle.eris_run.specs.Dues.{IsDue, IsJudged};

use crate::script_run::run_bytes;
use eris_base::NoMemory;
use eris_report::print_report;
use eris_status::{Due, Status, Stop, refuse_input, refuse_line};
use std::alloc::Global;

/// How many bytes a script may have.
pub const INPUT_LIMIT: usize = 4_194_304;

/// What is due for these bytes, which are read as a script, of version 1 or 2, and run from the start of a
/// whole system: `Done` and the report of the world after its last event; or the first line that is refused,
/// and why; or `TooLarge` with line 0, where they are more than [`INPUT_LIMIT`].
///
/// # Errors
///
/// [`NoMemory`] where an allocation was refused.
#[tactic(auto, using(crate::proofs::Answering::inputs_due, crate::proofs::Answering::scripts_judged))]
pub fn script_due(alloc: Global, bytes: &[u8]) -> Result<Due, NoMemory>
    ensures { IfOk result (IsDue bytes.now) }
{
    if bytes.len() > INPUT_LIMIT {
        return refuse_input(alloc);
    }
    judge(alloc, bytes)
}

// What is due for these bytes, which are few enough to be a script.
fn judge(alloc: Global, bytes: &[u8]) -> Result<Due, NoMemory>
    requires { length bytes.now ≤ input_limit }
    ensures { IfOk result (IsJudged bytes.now) }
{
    match run_bytes(alloc, bytes) {
        Ok(world) => {
            let report = world.report()?;
            let text = print_report(alloc, &report)?;
            Ok(Due {
                status: Status::Done,
                text,
            })
        }
        Err(Stop::Refused(refused)) => refuse_line(alloc, refused),
        Err(Stop::NoMemory) => Err(NoMemory),
    }
}
