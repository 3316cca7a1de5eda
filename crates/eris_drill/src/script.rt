ghost use Rattle.std.specs.Prelude.{◌≡◌, ◌≤◌, ◌∷◌, [], ◌++◌, IfOk, OnOk};
ghost use Rattle.eris_drill.specs.Draws.{after_words, generator, turn_at, turn_from};
ghost use Rattle.eris_drill.specs.DrillLines.{below, closing, drill_lines, opening, opening_put, retry_lines, settler, turn_lines};
ghost use Rattle.eris_drill.specs.DrillText.{drill_text, ended, line_text, lines_text};

use crate::accounts::{asked, opening_put, teller};
use crate::steps::{put_noon_where, put_retry, put_upkeep, put_upkeep_where, put_weather};
use crate::turn::{Turn, generator, next_turn};
use eris_base::{NoMemory, Row};
use eris_grammar::{Line, print_event};
use eris_words::append_decimal;
use std::alloc::Global;

#[tactic(auto, unfolding(crate::specs::DrillLines::opening))]
fn put_opening(alloc: Global, lines: &mut Row<Line>) -> Result<(), NoMemory>
    ensures { OnOk result (lines.new ≡ lines.old ++ opening) }
{
    put_puts(alloc, lines)?;
    lines.push(Line::Flow(112))
}

#[tactic(auto, unfolding(crate::specs::DrillLines::below))]
fn put_puts(alloc: Global, lines: &mut Row<Line>) -> Result<(), NoMemory>
    ensures { OnOk result (lines.new ≡ lines.old ++ below (λ number. Line.One (opening_put number) ∷ []) 16) }
{
    for number in 0..16 {
        let put = opening_put(alloc, number)?;
        lines.push(Line::One(put))?;
    }
    Ok(())
}

/// The replica of the first shard that is up: its first until the crash, and then its second.
#[tactic(auto, unfolding(crate::specs::DrillLines::settler))]
fn settler(number: u32, turn: u32) -> u8
    ensures { result ≡ settler number turn }
{
    if turn < number / 2 { 0 } else { 1 }
}

#[tactic(auto, unfolding(crate::specs::DrillLines::turn_lines))]
fn put_turn(
    alloc: Global,
    lines: &mut Row<Line>,
    number: u32,
    turn: u32,
    drawn: Turn,
) -> Result<(), NoMemory>
    requires drawn { drawn ≡ turn_at number turn }
    ensures { OnOk result (lines.new ≡ lines.old ++ turn_lines number turn) }
{
    put_noon_where(lines, turn == number / 2)?;
    let event = asked(alloc, teller(turn), drawn)?;
    lines.push(Line::One(event))?;
    put_weather(lines, drawn)?;
    put_upkeep_where(lines, turn % 4 == 3, settler(number, turn))
}

#[tactic(auto, unfolding(crate::specs::DrillLines::below))]
fn put_turns(alloc: Global, lines: &mut Row<Line>, number: u32) -> Result<(), NoMemory>
    ensures { OnOk result (lines.new ≡ lines.old ++ below (turn_lines number) number) }
{
    let mut draws = generator(number);
    for turn in 0..number {
        let drawn = next_turn(&mut draws);
        put_turn(alloc, lines, number, turn, drawn)?;
    }
    Ok(())
}

#[tactic(auto, unfolding(crate::specs::DrillLines::below))]
fn put_retries(lines: &mut Row<Line>, number: u32) -> Result<(), NoMemory>
    ensures { OnOk result (lines.new ≡ lines.old ++ below retry_lines number) }
{
    for turn in 0..number {
        put_retry(lines, turn)?;
    }
    Ok(())
}

#[tactic(auto, unfolding(crate::specs::DrillLines::closing))]
fn put_closing(lines: &mut Row<Line>, number: u32) -> Result<(), NoMemory>
    ensures { OnOk result (lines.new ≡ lines.old ++ closing number) }
{
    put_retries(lines, number)?;
    put_upkeep(lines, 1, 200)
}

/// The lines of the drill of this number, 1 to 500, behind its header. A drill is a day at a bank: 16 accounts on 4
/// shards get 1000 each; in each of `number` turns a client transfers between two accounts or reads them, by what
/// the generator of the number draws; packets are lost, and at noon a learner crashes; at the end each transaction of
/// the turns is asked for twice more.
#[tactic(auto, unfolding(crate::specs::DrillLines::drill_lines))]
pub fn drill_lines(alloc: Global, number: u32) -> Result<Row<Line>, NoMemory>
    requires some { 1 ≤ number }
    requires few { number ≤ 500 }
    ensures { IfOk result (λ lines. lines ≡ drill_lines number) }
{
    let mut lines = Row::new(alloc);
    put_opening(alloc, &mut lines)?;
    put_turns(alloc, &mut lines, number)?;
    put_closing(&mut lines, number)?;
    put_closing(&mut lines, number)?;
    Ok(lines)
}

fn put_line(alloc: Global, out: &mut Row<u8>, line: &Line) -> Result<(), NoMemory>
    ensures { OnOk result (out.new ≡ out.old ++ line_text line.now) }
{
    match line {
        Line::Skip => Ok(()),
        Line::One(event) => {
            let text = print_event(alloc, 1, event)?;
            out.append(text.as_slice())
        }
        Line::Flow(times) => {
            out.append(b"flow ")?;
            append_decimal(out, u64::from(*times))
        }
        Line::Lose(times) => {
            out.append(b"lose ")?;
            append_decimal(out, u64::from(*times))
        }
    }
}

fn put_lines(alloc: Global, out: &mut Row<u8>, lines: &[Line]) -> Result<(), NoMemory>
    ensures { OnOk result (out.new ≡ out.old ++ lines_text lines.now) }
{
    for line in lines {
        put_line(alloc, out, line)?;
        out.push(b'\n')?;
    }
    Ok(())
}

/// The script of the drill of this number, 1 to 500: the header of version 1 for 4 shards, f = 1 and 8 clients, and the
/// lines of [`drill_lines`], each line ended by LF.
#[tactic(auto, unfolding(crate::specs::DrillText::drill_text))]
pub fn drill_script(alloc: Global, number: u32) -> Result<Row<u8>, NoMemory>
    requires some { 1 ≤ number }
    requires few { number ≤ 500 }
    ensures { IfOk result (λ text. text ≡ drill_text number) }
{
    let lines = drill_lines(alloc, number)?;
    let mut text = Row::new(alloc);
    text.append(b"eris 1 4 1 8\n")?;
    put_lines(alloc, &mut text, lines.as_slice())?;
    Ok(text)
}
