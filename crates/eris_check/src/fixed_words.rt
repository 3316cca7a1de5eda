ghost use Rattle.std.specs.Prelude.{◌≡◌, ℕ, List, bytes_eq};
ghost use Rattle.eris_grammar.specs.FixedWords.{spelled_so};
ghost use Rattle.eris_report.specs.OrderText.{outcome_word};
ghost use Rattle.eris_report.specs.ReplicaText.{state_word};
ghost use Rattle.eris_words.specs.Forms.{Gives};
ghost use Rattle.eris_check.specs.ReportWords as fixed;

use eris_audit::Outcome;
use eris_event::ReplicaState;
use eris_words::{LineFault, LineWords, Reason};

/// The first word of a line behind the config: what the line is.
#[derive(Clone, Copy, Debug, PartialEq, Eq)]
pub(crate) enum LineWord {
    Submit,
    General,
    Read,
    Answer,
    Told,
    Order,
    Replica,
    Coordinator,
    Sent,
    End,
}

/// What is written as one word of a table.
trait FixedWord: Copy {
    ghost written: { Self → List ℕ };

    fn text(&self) -> &'static [u8]
        ensures { result.now ≡ written self.now };
}

fn is_written<T: FixedWord>(known: &T, word: &[u8]) -> bool
    ensures { result ≡ bytes_eq (T.written known.now) word.now }
{
    known.text() == word
}

// The one of all that the word writes.
fn written_so<T: FixedWord>(all: &[T], word: &[u8]) -> Option<T>
    ensures { result ≡ spelled_so T.written all.now word.now }
{
    let mut rest = all;
    while let [known, more @ ..] = rest {
        if is_written(known, word) {
            return Some(*known);
        }
        rest = more;
    }
    None
}

const LINE_WORDS: [LineWord; 10] = [
    LineWord::Submit,
    LineWord::General,
    LineWord::Read,
    LineWord::Answer,
    LineWord::Told,
    LineWord::Order,
    LineWord::Replica,
    LineWord::Coordinator,
    LineWord::Sent,
    LineWord::End,
];

impl FixedWord for LineWord {
    ghost written = { fixed.line_word_text };

    fn text(&self) -> &'static [u8] {
        match self {
            LineWord::Submit => b"submit",
            LineWord::General => b"general",
            LineWord::Read => b"read",
            LineWord::Answer => b"answer",
            LineWord::Told => b"told",
            LineWord::Order => b"order",
            LineWord::Replica => b"replica",
            LineWord::Coordinator => b"coordinator",
            LineWord::Sent => b"sent",
            LineWord::End => b"end",
        }
    }
}

#[tactic(auto, unfolding(crate::specs::ReportWords::line_word))]
pub(crate) fn line_word_of(words: &mut LineWords) -> Result<LineWord, LineFault>
    ensures { Gives (λ word. (word, words.new)) result (fixed.line_word.read words.old) }
{
    match written_so(&LINE_WORDS, words.next()?) {
        Some(word) => Ok(word),
        None => Err(LineFault::Bad(Reason::Word)),
    }
}

const OUTCOMES: [Outcome; 4] = [
    Outcome::Done,
    Outcome::Committed,
    Outcome::Aborted,
    Outcome::Pending,
];

impl FixedWord for Outcome {
    ghost written = { outcome_word };

    fn text(&self) -> &'static [u8] {
        match self {
            Outcome::Done => b"done",
            Outcome::Committed => b"committed",
            Outcome::Aborted => b"aborted",
            Outcome::Pending => b"open",
        }
    }
}

#[tactic(auto, unfolding(crate::specs::ReportWords::outcome))]
pub(crate) fn outcome_of(words: &mut LineWords) -> Result<Outcome, LineFault>
    ensures { Gives (λ outcome. (outcome, words.new)) result (fixed.outcome.read words.old) }
{
    match written_so(&OUTCOMES, words.next()?) {
        Some(outcome) => Ok(outcome),
        None => Err(LineFault::Bad(Reason::Word)),
    }
}

const STATES: [ReplicaState; 4] = [
    ReplicaState::Crashed,
    ReplicaState::Stopped,
    ReplicaState::Normal,
    ReplicaState::Changing,
];

impl FixedWord for ReplicaState {
    ghost written = { state_word };

    fn text(&self) -> &'static [u8] {
        match self {
            ReplicaState::Crashed => b"crashed",
            ReplicaState::Stopped => b"stopped",
            ReplicaState::Normal => b"normal",
            ReplicaState::Changing => b"changing",
        }
    }
}

#[tactic(auto, unfolding(crate::specs::ReportWords::state))]
pub(crate) fn state_of(words: &mut LineWords) -> Result<ReplicaState, LineFault>
    ensures { Gives (λ state. (state, words.new)) result (fixed.state.read words.old) }
{
    match written_so(&STATES, words.next()?) {
        Some(state) => Ok(state),
        None => Err(LineFault::Bad(Reason::Word)),
    }
}
