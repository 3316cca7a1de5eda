ghost use Rattle.std.specs.Prelude.{◌≡◌};
ghost use Rattle.eris_words.specs.Cuts as cuts;
ghost use Rattle.eris_words.specs.Forms.{Gives};
ghost use Rattle.eris_check.specs.ReportForms as form;

use crate::fields::count_of;
use crate::fixed_words::{LineWord, line_word_of};
use crate::history_line::{answered_of, general_of, read_of, submit_of, told_of};
use crate::order_line::order_of;
use crate::replica_line::{coordinator_of, replica_of};
use eris_audit::OrderLine;
use eris_base::Epoch;
use eris_event::ReplicaLine;
use eris_txn::HistoryEvent;
use eris_words::{LineFault, LineWords};
use std::alloc::Global;

/// What the coordinator's line tells.
#[derive(Clone, Copy, Debug, PartialEq, Eq)]
pub(crate) struct Counts {
    pub current: Epoch,
    pub target: Epoch,
    pub found: u32,
    pub dropped: u32,
}

/// What a line of a report behind its config says.
#[derive(Debug, Drop)]
pub(crate) enum ReportLine {
    Event(HistoryEvent),
    Order(OrderLine),
    Replica(ReplicaLine),
    Coordinator(Counts),
    /// How many packets were sent.
    Sent(u32),
    End,
}

#[tactic(auto, unfolding(crate::specs::ReportForms::sent_of))]
fn sent_of(words: &mut LineWords) -> Result<ReportLine, LineFault>
    ensures { Gives (λ line. line) result (form.sent_of words.old) }
{
    let sent = count_of(words)?;
    words.end()?;
    Ok(ReportLine::Sent(sent))
}

#[tactic(auto, unfolding(crate::specs::ReportForms::end_of))]
fn end_of(words: &mut LineWords) -> Result<ReportLine, LineFault>
    ensures { Gives (λ line. line) result (form.end_of words.old) }
{
    words.end()?;
    Ok(ReportLine::End)
}

// What a line says behind its first word.
#[tactic(auto, unfolding(crate::specs::ReportForms::line_behind))]
fn line_behind(
    alloc: Global,
    text: &[u8],
    word: LineWord,
    words: &mut LineWords,
) -> Result<ReportLine, LineFault>
    ensures { Gives (λ line. line) result (form.line_behind (cuts.words text.now) word words.old) }
{
    match word {
        LineWord::Submit => submit_of(alloc, words),
        LineWord::General => general_of(alloc, text, words),
        LineWord::Read => read_of(alloc, words),
        LineWord::Answer => answered_of(alloc, words),
        LineWord::Told => told_of(words),
        LineWord::Order => order_of(alloc, words),
        LineWord::Replica => replica_of(words),
        LineWord::Coordinator => coordinator_of(words),
        LineWord::Sent => sent_of(words),
        LineWord::End => end_of(words),
    }
}

/// What a line behind the config says, without the LF that ends it.
#[tactic(auto, unfolding(crate::specs::ReportForms::line_of))]
pub(crate) fn line_of(alloc: Global, text: &[u8]) -> Result<ReportLine, LineFault>
    ensures { Gives (λ line. line) result (form.line_of (cuts.words text.now)) }
{
    let mut words = LineWords::new(text);
    let word = line_word_of(&mut words)?;
    line_behind(alloc, text, word, &mut words)
}
