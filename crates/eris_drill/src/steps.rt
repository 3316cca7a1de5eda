ghost use Rattle.std.specs.Prelude.{◌≡◌, ◌<◌, ◌∷◌, [], ◌++◌, OnOk, ◌==◌, ◌/◌, ◌%◌, if◌then◌else◌};
ghost use Rattle.eris_drill.specs.DrillLines.{noon, retry_lines, upkeep, weather};

use crate::accounts::teller;
use crate::turn::Turn;
use eris_base::{NoMemory, ReplicaId, Row, ShardId};
use eris_event::Event;
use eris_grammar::Line;

// Each function here adds lines of one kind to a script.

#[tactic(auto, unfolding(crate::specs::DrillLines::noon))]
fn put_noon(lines: &mut Row<Line>) -> Result<(), NoMemory>
    ensures { OnOk result (lines.new ≡ lines.old ++ noon) }
{
    let shard = ShardId(0);
    lines.push(Line::One(Event::Crash {
        shard,
        replica: ReplicaId(0),
    }))?;
    lines.push(Line::One(Event::Suspect {
        shard,
        replica: ReplicaId(1),
    }))?;
    lines.push(Line::One(Event::Suspect {
        shard,
        replica: ReplicaId(2),
    }))?;
    lines.push(Line::Flow(60))
}

/// The crash of noon and what follows it, where it is noon.
pub(crate) fn put_noon_where(lines: &mut Row<Line>, is_noon: bool) -> Result<(), NoMemory>
    ensures { OnOk result (lines.new ≡ lines.old ++ (if is_noon then noon else [])) }
{
    if is_noon { put_noon(lines) } else { Ok(()) }
}

/// What the network does with the packets of a turn.
#[tactic(auto, unfolding(crate::specs::DrillLines::weather))]
pub(crate) fn put_weather(lines: &mut Row<Line>, turn: Turn) -> Result<(), NoMemory>
    ensures { OnOk result (lines.new ≡ lines.old ++ weather turn) }
{
    if turn.weather == 0 {
        lines.push(Line::Flow(5))?;
        lines.push(Line::Lose(1))?;
    }
    lines.push(Line::Flow(60))
}

fn put_sync(lines: &mut Row<Line>, shard: u8, replica: u8) -> Result<(), NoMemory>
    ensures { OnOk result (lines.new ≡ lines.old ++ Line.One (Event.Sync (record { 0 = shard }) (record { 0 = replica })) ∷ []) }
{
    lines.push(Line::One(Event::Sync {
        shard: ShardId(shard),
        replica: ReplicaId(replica),
    }))
}

/// The timers of the coordinator and of one replica of each shard; on the first shard it is `first`.
#[tactic(auto, unfolding(crate::specs::DrillLines::upkeep))]
pub(crate) fn put_upkeep(lines: &mut Row<Line>, first: u8, flows: u32) -> Result<(), NoMemory>
    ensures { OnOk result (lines.new ≡ lines.old ++ upkeep first flows) }
{
    lines.push(Line::One(Event::Nudge))?;
    put_sync(lines, 0, first)?;
    put_sync(lines, 1, 0)?;
    put_sync(lines, 2, 0)?;
    put_sync(lines, 3, 0)?;
    lines.push(Line::Flow(flows))
}

/// The same, where it is due.
pub(crate) fn put_upkeep_where(
    lines: &mut Row<Line>,
    is_due: bool,
    first: u8,
) -> Result<(), NoMemory>
    ensures { OnOk result (lines.new ≡ lines.old ++ (if is_due then upkeep first 60 else [])) }
{
    if is_due {
        put_upkeep(lines, first, 60)
    } else {
        Ok(())
    }
}

/// The client of a turn asks once more for the turn's transaction.
#[tactic(auto, unfolding(crate::specs::DrillLines::retry_lines))]
pub(crate) fn put_retry(lines: &mut Row<Line>, turn: u32) -> Result<(), NoMemory>
    ensures { OnOk result (lines.new ≡ lines.old ++ retry_lines turn) }
{
    lines.push(Line::One(Event::Retry {
        client: teller(turn),
        number: 3 + turn / 8,
    }))?;
    lines.push(Line::Flow(60))
}
