ghost use Rattle.std.specs.Prelude.{◌≡◌};
ghost use Rattle.eris_words.specs.Cuts as cuts;
ghost use Rattle.eris_words.specs.Forms.{Gives, whole};
ghost use Rattle.eris_check.specs.ReportFields as field;
ghost use Rattle.eris_check.specs.ReportForms as form;

use crate::fields::{asker_and_id, id_of};
use crate::items::few_items_of;
use crate::plan_line::guards_come_first;
use crate::report_line::ReportLine;
use eris_grammar::{ops_of, plan_of};
use eris_txn::{Answer, HistoryEvent, Txn};
use eris_words::{LineFault, LineWords, Reason};
use std::alloc::Global;

// Reports have what version 2 of a script's grammar has.
const VERSION: u8 = 2;

#[tactic(auto, unfolding(crate::specs::ReportForms::submit_of))]
pub(crate) fn submit_of(alloc: Global, words: &mut LineWords) -> Result<ReportLine, LineFault>
    ensures { Gives (λ line. line) result (form.submit_of words.old) }
{
    let id = id_of(words)?;
    let ops = ops_of(alloc, VERSION, words)?;
    Ok(ReportLine::Event(HistoryEvent::Submit(id, Txn::Whole(ops))))
}

/// The plan's clauses may be mixed in a script and may not in a report, so all words of the line's text
/// are looked at once more.
#[tactic(auto, unfolding(crate::specs::ReportForms::general_of))]
pub(crate) fn general_of(
    alloc: Global,
    text: &[u8],
    words: &mut LineWords,
) -> Result<ReportLine, LineFault>
    ensures { Gives (λ line. line) result (form.general_of (cuts.words text.now) words.old) }
{
    if !guards_come_first(&mut LineWords::new(text)) {
        return Err(LineFault::Bad(Reason::Word));
    }
    let id = id_of(words)?;
    let plan = plan_of(alloc, VERSION, words)?;
    Ok(ReportLine::Event(HistoryEvent::Submit(id, Txn::General(plan))))
}

#[tactic(auto, unfolding(crate::specs::ReportForms::read_of))]
pub(crate) fn read_of(alloc: Global, words: &mut LineWords) -> Result<ReportLine, LineFault>
    ensures { Gives (λ line. line) result (form.read_of words.old) }
{
    let id = id_of(words)?;
    let values = few_items_of(alloc, words)?;
    Ok(ReportLine::Event(HistoryEvent::Read(id, values)))
}

fn told_in(word: &[u8]) -> Option<Answer>
    ensures { result ≡ field.read_told word.now }
{
    if word == b"committed".as_slice() {
        Some(Answer::Committed)
    } else if word == b"aborted".as_slice() {
        Some(Answer::Aborted)
    } else {
        None
    }
}

#[tactic(auto, unfolding(crate::specs::ReportFields::told))]
fn outcome_told(words: &mut LineWords) -> Result<Answer, LineFault>
    ensures { Gives (λ answer. answer) result (whole field.told words.old) }
{
    let Some(answer) = told_in(words.next()?) else {
        return Err(LineFault::Bad(Reason::Word));
    };
    words.end()?;
    Ok(answer)
}

#[tactic(auto, unfolding(crate::specs::ReportForms::answer_of))]
fn answer_of(alloc: Global, words: &mut LineWords) -> Result<Answer, LineFault>
    ensures { Gives (λ answer. answer) result (form.answer_of words.old) }
{
    if words.is_at(b"committed") || words.is_at(b"aborted") {
        outcome_told(words)
    } else {
        Ok(Answer::Ops(few_items_of(alloc, words)?))
    }
}

#[tactic(auto, unfolding(crate::specs::ReportForms::answered_of))]
pub(crate) fn answered_of(alloc: Global, words: &mut LineWords) -> Result<ReportLine, LineFault>
    ensures { Gives (λ line. line) result (form.answered_of words.old) }
{
    let id = id_of(words)?;
    let answer = answer_of(alloc, words)?;
    Ok(ReportLine::Event(HistoryEvent::Answer(id, answer)))
}

#[tactic(auto, unfolding(crate::specs::ReportForms::told_of))]
pub(crate) fn told_of(words: &mut LineWords) -> Result<ReportLine, LineFault>
    ensures { Gives (λ line. line) result (form.told_of words.old) }
{
    let (asker, id) = asker_and_id(words)?;
    let outcome = outcome_told(words)?;
    Ok(ReportLine::Event(HistoryEvent::Told(asker, id, outcome)))
}
