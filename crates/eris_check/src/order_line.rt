ghost use Rattle.std.specs.Prelude.{◌≡◌, None, IsTrue, IfOk};
ghost use Rattle.eris_base.specs.Places.{are_stamp_places, ascends_from, is_later};
ghost use Rattle.eris_words.specs.Forms.{Gives};
ghost use Rattle.eris_check.specs.ReportForms as form;

use crate::fields::{count_of, id_of};
use crate::fixed_words::outcome_of;
use crate::items::items_of;
use crate::report_line::ReportLine;
use eris_audit::{OrderLine, Outcome};
use eris_base::{Epoch, Row, ShardId, Stamp, TxnId};
use eris_words::{LineFault, LineWords, Reason};
use std::alloc::Global;

fn is_later(before: Option<ShardId>, shard: ShardId) -> bool
    ensures { result ≡ is_later before shard }
{
    match before {
        Some(before) => before.0 < shard.0,
        None => true,
    }
}

fn ascend(places: &[(ShardId, u32)]) -> bool
    ensures { result ≡ ascends_from None places.now }
{
    let mut before = None;
    let mut rest = places;
    while let [place, more @ ..] = rest {
        if !is_later(before, place.0) {
            return false;
        }
        before = Some(place.0);
        rest = more;
    }
    true
}

fn are_stamp_places(places: &[(ShardId, u32)]) -> bool
    ensures { result ≡ are_stamp_places places.now }
{
    !places.is_empty() && ascend(places)
}

fn places_of(alloc: Global, words: &mut LineWords) -> Result<Row<(ShardId, u32)>, LineFault>
    ensures gives { Gives (λ places. places) result (form.places_of words.old) }
    ensures ascend { IfOk result (λ places. IsTrue (are_stamp_places places)) }
{
    let places = items_of(alloc, words)?;
    if !are_stamp_places(places.as_slice()) {
        return Err(LineFault::Bad(Reason::Number));
    }
    Ok(places)
}

#[tactic(auto, unfolding(crate::specs::ReportForms::stamp_of))]
fn stamp_of(alloc: Global, words: &mut LineWords) -> Result<Stamp, LineFault>
    ensures { Gives (λ stamp. stamp) result (form.stamp_of words.old) }
{
    let epoch = Epoch(count_of(words)?);
    let places = places_of(alloc, words)?;
    Ok(Stamp { epoch, places })
}

#[tactic(auto, unfolding(crate::specs::ReportForms::id_and_outcome))]
fn id_and_outcome(words: &mut LineWords) -> Result<(TxnId, Outcome), LineFault>
    ensures { Gives (λ p. (p, words.new)) result (form.id_and_outcome.read words.old) }
{
    let id = id_of(words)?;
    let outcome = outcome_of(words)?;
    Ok((id, outcome))
}

#[tactic(auto, unfolding(crate::specs::ReportForms::order_of))]
pub(crate) fn order_of(alloc: Global, words: &mut LineWords) -> Result<ReportLine, LineFault>
    ensures { Gives (λ line. line) result (form.order_of words.old) }
{
    let (id, outcome) = id_and_outcome(words)?;
    let stamp = stamp_of(alloc, words)?;
    Ok(ReportLine::Order(OrderLine { id, outcome, stamp }))
}
