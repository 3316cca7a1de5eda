ghost use Rattle.std.specs.Prelude.{◌≡◌, ◌≤◌, ℕ, Err, None, Some, IfOk, IfSome};
ghost use Rattle.eris_stream.specs.Faults.{Rose};
ghost use Rattle.eris_cmd.specs.Named.{input_limit_of};
ghost use Rattle.eris_cmd.specs.Answers.{IsDueOf};
ghost use Rattle.eris_cmd.specs.Streams.{IsDueFor};

use crate::answering::due_for;
use crate::command::Command;
use eris_status::{Due, Failure, refuse_input};
use eris_stream::{ReadEnd, Source, read_all};
use std::alloc::Global;

/// What is due for the command, whose input is read to its limit; a command that reads nothing leaves the source.
///
/// # Errors
///
/// `Fault` where the source failed. `NoMemory` where an allocation was refused.
pub(crate) fn due_of<S: Source>(
    alloc: Global,
    command: Command,
    src: &mut S,
) -> Result<Due, Failure>
    ensures ok { IfOk result (IsDueFor command (S.left src.old) (S.left src.new)) }
    ensures all { IfSome (S.left src.old) (λ left. IfOk result (IsDueOf command left)) }
    ensures fault { result ≡ Err Failure.Fault → ((limit : ℕ) × (input_limit_of command ≡ Some limit)) × Rose (S.faults src.old) (S.faults src.new) }
    ensures untouched { input_limit_of command ≡ None → src.new ≡ src.old }
    ensures later { S.faults src.old ≤ S.faults src.new }
{
    match command.input_limit() {
        Some(limit) => read_and_answer(alloc, command, limit, src),
        None => Ok(due_for(alloc, command, b"")?),
    }
}

// What is due for a command that reads so many bytes at most. Past that it is the same for all inputs.
fn read_and_answer<S: Source>(
    alloc: Global,
    command: Command,
    limit: usize,
    src: &mut S,
) -> Result<Due, Failure>
    requires { input_limit_of command ≡ Some limit }
    ensures ok { IfOk result (IsDueFor command (S.left src.old) (S.left src.new)) }
    ensures all { IfSome (S.left src.old) (λ left. IfOk result (IsDueOf command left)) }
    ensures fault { result ≡ Err Failure.Fault → Rose (S.faults src.old) (S.faults src.new) }
    ensures later { S.faults src.old ≤ S.faults src.new }
{
    match read_all(alloc, src, limit) {
        Ok(bytes) => Ok(due_for(alloc, command, bytes.as_slice())?),
        Err(ReadEnd::Long) => Ok(refuse_input(alloc)?),
        Err(ReadEnd::Fault) => Err(Failure::Fault),
        Err(ReadEnd::NoMemory) => Err(Failure::NoMemory),
    }
}
