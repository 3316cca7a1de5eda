ghost use Rattle.std.specs.Prelude.{◌≡◌, ◌⊎◌, ◌+◌, ◌^◌, ◌<◌, ◌≤◌, length, IfOk, IfErr, OnOk};
ghost use Rattle.eris_words.specs.Cuts.{lines};
ghost use Rattle.eris_rules.specs.Worlds.{first_world};
ghost use Rattle.eris_run.specs.Calls.{input_limit};
ghost use Rattle.eris_run.specs.FirstRefused.{IsFirstRefused};
ghost use Rattle.eris_run.specs.LineRuns.{begun, begins, IfRefused, IsAfterScript, IsFine, IsStopOf, IsWorldOf, TakesLines};
ghost use Rattle.eris_run.specs.ScriptRuns.{after_lines, outcome};

use crate::line_run::run_line;
use eris_base::{Config, NoMemory};
use eris_grammar::{Header, parse_header};
use eris_status::{Refused, Stop, Why};
use eris_words::first_line;
use eris_world::World;
use std::alloc::Global;

// A world as it begins, with room for the lines of a script.
#[tactic(auto, using(crate::proofs::EventRuns::beginnings))]
fn begin(alloc: Global, config: Config) -> Result<World, NoMemory>
    ensures value { IfOk result (λ world. world ≡ begins config) }
    ensures fine { IfOk result IsFine }
    ensures few { IfOk result (λ world. begun world.state ≡ 1) }
{
    World::new(alloc, config)
}

// Runs the lines behind the header, of which the first is line 2.
fn run_lines(alloc: Global, version: u8, world: &mut World, text: &[u8]) -> Result<(), Stop>
    requires known { (version ≡ 1) ⊎ (version ≡ 2) }
    requires fine { IsFine world.old }
    requires room { begun world.old.state + length text.now + 2 < 2 ^ 32 }
    ensures ok { OnOk result (TakesLines version world.old world.new text.now) }
    ensures bad { IfErr result (IsStopOf (after_lines version world.old.config 2 world.old.state (lines text.now))) }
{
    let mut rest = text;
    let mut number = 2;
    while !rest.is_empty() {
        let (line, more) = first_line(rest);
        run_line(alloc, version, world, line, number)?;
        rest = more;
        number += 1;
    }
    Ok(())
}

// Runs the lines behind a header, from the start of the system.
fn run_behind(alloc: Global, header: Header, text: &[u8]) -> Result<World, Stop>
    requires known { (header.version ≡ 1) ⊎ (header.version ≡ 2) }
    requires short { length text.now ≤ input_limit }
    ensures ok { IfOk result (λ world. TakesLines header.version (begins header.config) world text.now) }
    ensures bad { IfErr result (IsStopOf (after_lines header.version header.config 2 (first_world header.config) (lines text.now))) }
{
    let mut world = begin(alloc, header.config)?;
    match run_lines(alloc, header.version, &mut world, text) {
        Ok(()) => Ok(world),
        Err(stop) => {
            leave(world);
            Err(stop)
        }
    }
}

// Nobody needs the world.
fn leave(_world: World) {}

// Runs a whole script, and answers the world after it.
fn run_text(alloc: Global, text: &[u8]) -> Result<World, Stop>
    requires { length text.now ≤ input_limit }
    ensures ok { IfOk result (IsAfterScript text.now) }
    ensures bad { IfErr result (IsStopOf (outcome text.now)) }
{
    let (first, rest) = first_line(text);
    match parse_header(first) {
        Ok(header) => run_behind(alloc, header, rest),
        Err(reason) => Err(Stop::Refused(Refused {
            line: 1,
            why: Why::Reason(reason),
        })),
    }
}

/// Runs the bytes of a script, of version 1 or 2, from the start of a whole system, and answers the world
/// after its last event.
///
/// # Errors
///
/// `Refused` exactly where a line is refused, by the grammar or by the world: the first that is, and why.
/// `NoMemory` where an allocation was refused.
#[tactic(auto, using(crate::proofs::ScriptLaws::world_of))]
pub fn run_bytes(alloc: Global, text: &[u8]) -> Result<World, Stop>
    requires { length text.now ≤ input_limit }
    ensures ok { IfOk result (IsAfterScript text.now) }
    ensures script { IfOk result (IsWorldOf text.now) }
    ensures bad { IfErr result (IsStopOf (outcome text.now)) }
    ensures first { IfErr result (λ stop. IfRefused stop (λ refused. IsFirstRefused text.now refused.line refused.why)) }
{
    run_text(alloc, text)
}
