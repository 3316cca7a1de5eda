ghost use Rattle.std.specs.Prelude.{◌≡◌};
ghost use Rattle.eris_words.specs.Forms.{Gives, pair, whole};
ghost use Rattle.eris_check.specs.ReportForms as form;

use crate::fields::{labelled_of, small_of};
use crate::fixed_words::state_of;
use crate::report_line::{Counts, ReportLine};
use eris_base::{Epoch, ReplicaId, ShardId, View};
use eris_event::{ReplicaLine, ReplicaState};
use eris_words::{LineFault, LineWords};

#[tactic(auto, unfolding(crate::specs::ReportForms::replica_and_state))]
fn replica_and_state(words: &mut LineWords) -> Result<(u8, u8, ReplicaState), LineFault>
    ensures { Gives (λ p. ((p.0, (p.1, p.2)), words.new)) result (form.replica_and_state.read words.old) }
{
    let shard = small_of(words)?;
    let replica = small_of(words)?;
    let state = state_of(words)?;
    Ok((shard, replica, state))
}

#[tactic(auto, unfolding(crate::specs::ReportForms::progress))]
fn progress(words: &mut LineWords) -> Result<(u32, u32, u32, u32, u32), LineFault>
    ensures { Gives (λ p. ((p.0, (p.1, (p.2, (p.3, p.4)))), words.new)) result (form.progress.read words.old) }
{
    let epoch = labelled_of(words, b"epoch")?;
    let view = labelled_of(words, b"view")?;
    let held = labelled_of(words, b"held")?;
    let length = labelled_of(words, b"length")?;
    let settled = labelled_of(words, b"settled")?;
    Ok((epoch, view, held, length, settled))
}

#[tactic(auto, unfolding(crate::specs::ReportForms::replica_of))]
pub(crate) fn replica_of(words: &mut LineWords) -> Result<ReportLine, LineFault>
    ensures { Gives (λ line. line) result (form.replica_of words.old) }
{
    let (shard, replica, state) = replica_and_state(words)?;
    let (epoch, view, held, length, settled) = progress(words)?;
    words.end()?;
    Ok(ReportLine::Replica(ReplicaLine {
        shard: ShardId(shard),
        replica: ReplicaId(replica),
        state,
        epoch: Epoch(epoch),
        view: View(view),
        held,
        length,
        settled,
    }))
}

#[tactic(auto, unfolding(crate::specs::ReportForms::counts))]
fn counts_of(words: &mut LineWords) -> Result<(u32, u32, u32, u32), LineFault>
    ensures { Gives (λ p. ((p.0, (p.1, (p.2, p.3))), words.new)) result (form.counts.read words.old) }
{
    let current = labelled_of(words, b"epoch")?;
    let target = labelled_of(words, b"target")?;
    let found = labelled_of(words, b"found")?;
    let dropped = labelled_of(words, b"dropped")?;
    Ok((current, target, found, dropped))
}

#[tactic(auto, unfolding(crate::specs::ReportForms::coordinator_of))]
pub(crate) fn coordinator_of(words: &mut LineWords) -> Result<ReportLine, LineFault>
    ensures { Gives (λ line. line) result (form.coordinator_of words.old) }
{
    let (current, target, found, dropped) = counts_of(words)?;
    words.end()?;
    Ok(ReportLine::Coordinator(Counts {
        current: Epoch(current),
        target: Epoch(target),
        found,
        dropped,
    }))
}
