ghost use Rattle.std.specs.Prelude.{◌≡◌, ◌⊎◌, ◌+◌, ◌<◌, ◌^◌, [], ◌∷◌, false, replicate, IfOk, IfErr, OnOk};
ghost use Rattle.eris_event.specs.declared.event.Event.TheVariants.{Flow as flow_event, Lose as lose_event};
ghost use Rattle.eris_words.specs.Forms.{Gives};
ghost use Rattle.eris_grammar.specs.LineForms.{line_of};
ghost use Rattle.eris_grammar.specs.Scripts.{events_of};
ghost use Rattle.eris_world.specs.WorldValues.{EventFits};
ghost use Rattle.eris_run.specs.LineRuns.{begun, cost, IsFine, IsStopOf, LineFits, Takes, TakesLine};
ghost use Rattle.eris_run.specs.ScriptRuns.{after_events, after_line, after_said, told};

use eris_event::Event;
use eris_grammar::{Line, parse_line};
use eris_status::{Refused, Stop, Why, stop_at};
use eris_words::LineFault;
use eris_world::World;
use std::alloc::Global;

// An event of the line of this number.
#[tactic(auto, using(crate::proofs::EventRuns::events))]
fn take_event(world: &mut World, event: Event, number: u32) -> Result<(), Stop>
    requires fine { IsFine world.old }
    requires room { begun world.old.state + 1 < 2 ^ 32 }
    requires fits { EventFits event }
    ensures ok { OnOk result (Takes world.old world.new (event ∷ []) (cost event)) }
    ensures bad { IfErr result (IsStopOf (told number (after_events world.old.config world.old.state (event ∷ [])))) }
{
    match world.apply(event) {
        Ok(()) => Ok(()),
        Err(refusal) => Err(stop_at(number, refusal)),
    }
}

// A flow where nothing waits does nothing, so the count stops there.
fn flow(world: &mut World, flows: u32, number: u32) -> Result<(), Stop>
    requires fine { IsFine world.old }
    requires room { begun world.old.state + 1 < 2 ^ 32 }
    ensures ok { OnOk result (Takes world.old world.new (replicate flows flow_event) 0) }
    ensures bad { IfErr result (IsStopOf (told number (after_events world.old.config world.old.state (replicate flows flow_event)))) }
{
    for _ in 0..flows {
        if !world.has_waiting() {
            return Ok(());
        }
        take_event(world, Event::Flow, number)?;
    }
    Ok(())
}

// A loss where nothing waits does nothing, so the count stops there.
fn lose(world: &mut World, losses: u32, number: u32) -> Result<(), Stop>
    requires fine { IsFine world.old }
    requires room { begun world.old.state + 1 < 2 ^ 32 }
    ensures ok { OnOk result (Takes world.old world.new (replicate losses lose_event) 0) }
    ensures bad { IfErr result (IsStopOf (told number (after_events world.old.config world.old.state (replicate losses lose_event)))) }
{
    for _ in 0..losses {
        if !world.has_waiting() {
            return Ok(());
        }
        take_event(world, Event::Lose, number)?;
    }
    Ok(())
}

// What the line of this number says is done.
#[tactic(auto, using(crate::proofs::EventRuns::sayings), unfolding(crate::specs::ScriptRuns::after_said))]
fn take_said(world: &mut World, said: Line, number: u32) -> Result<(), Stop>
    requires fine { IsFine world.old }
    requires room { begun world.old.state + 1 < 2 ^ 32 }
    requires fits { LineFits said }
    ensures ok { OnOk result (Takes world.old world.new (events_of said) 1) }
    ensures bad { IfErr result (IsStopOf (after_said world.old.config number world.old.state said)) }
{
    match said {
        Line::Skip => Ok(()),
        Line::One(event) => take_event(world, event, number),
        Line::Flow(times) => flow(world, times, number),
        Line::Lose(times) => lose(world, times, number),
    }
}

#[tactic(auto, using(crate::proofs::EventRuns::readings))]
fn read_line(alloc: Global, version: u8, text: &[u8]) -> Result<Line, LineFault>
    requires { (version ≡ 1) ⊎ (version ≡ 2) }
    ensures exact { Gives (λ said. said) result (line_of version text.now) }
    ensures fits { IfOk result LineFits }
{
    parse_line(alloc, version, text)
}

// The line of this number is read and done.
#[tactic(auto, unfolding(crate::specs::ScriptRuns::after_line, crate::specs::ScriptRuns::after_said))]
pub(crate) fn run_line(
    alloc: Global,
    version: u8,
    world: &mut World,
    text: &[u8],
    number: u32,
) -> Result<(), Stop>
    requires known { (version ≡ 1) ⊎ (version ≡ 2) }
    requires fine { IsFine world.old }
    requires room { begun world.old.state + 1 < 2 ^ 32 }
    ensures ok { OnOk result (TakesLine version number world.old world.new text.now) }
    ensures bad { IfErr result (IsStopOf (after_line version world.old.config number world.old.state text.now)) }
{
    match read_line(alloc, version, text) {
        Ok(said) => take_said(world, said, number),
        Err(LineFault::Bad(reason)) => Err(Stop::Refused(Refused {
            line: number,
            why: Why::Reason(reason),
        })),
        Err(LineFault::NoMemory) => Err(Stop::NoMemory),
    }
}
