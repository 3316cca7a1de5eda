ghost use Rattle.std.specs.Prelude.{◌≡◌, ℕ, List, bytes_eq};
ghost use Rattle.eris_grammar.specs.FixedWords as fixed;
ghost use Rattle.eris_words.specs.Forms.{Gives};

use eris_words::{LineFault, LineWords, Reason};

/// The first word of a line: what it asks.
#[derive(Clone, Copy, Debug, PartialEq, Eq)]
pub(crate) enum LineWord {
    Submit,
    General,
    Retry,
    Abort,
    Deliver,
    Flow,
    Lose,
    Probe,
    Suspect,
    Sync,
    Crash,
    Nudge,
    Replace,
    Noise,
}

/// The first word of an operation.
#[derive(Clone, Copy, Debug, PartialEq, Eq)]
pub(crate) enum OpWord {
    Get,
    Put,
    Del,
    Add,
    Cas,
}

/// The first word of a plan's clause.
#[derive(Clone, Copy, Debug, PartialEq, Eq)]
pub(crate) enum ClauseWord {
    Guard,
    Set,
    Plus,
    Minus,
}

/// The kind of node that gets noise.
#[derive(Clone, Copy, Debug, PartialEq, Eq)]
pub(crate) enum NodeWord {
    Sequencer,
    Coordinator,
    Replica,
    Client,
}

/// What is written as one word of a table.
trait FixedWord: Copy {
    ghost written: { Self → List ℕ };

    fn text(&self) -> &'static [u8]
        ensures { result.now ≡ written self.now };
}

fn is_written<T: FixedWord>(known: &T, word: &[u8]) -> bool
    ensures { result ≡ bytes_eq (T.written known.now) word.now }
{
    known.text() == word
}

// The one of all that the word writes.
fn written_so<T: FixedWord>(all: &[T], word: &[u8]) -> Option<T>
    ensures { result ≡ fixed.spelled_so T.written all.now word.now }
{
    let mut rest = all;
    while let [known, more @ ..] = rest {
        if is_written(known, word) {
            return Some(*known);
        }
        rest = more;
    }
    None
}

const LINE_WORDS: [LineWord; 14] = [
    LineWord::Submit,
    LineWord::General,
    LineWord::Retry,
    LineWord::Abort,
    LineWord::Deliver,
    LineWord::Flow,
    LineWord::Lose,
    LineWord::Probe,
    LineWord::Suspect,
    LineWord::Sync,
    LineWord::Crash,
    LineWord::Nudge,
    LineWord::Replace,
    LineWord::Noise,
];

impl FixedWord for LineWord {
    ghost written = { fixed.line_word_text };

    fn text(&self) -> &'static [u8] {
        match self {
            LineWord::Submit => b"submit",
            LineWord::General => b"general",
            LineWord::Retry => b"retry",
            LineWord::Abort => b"abort",
            LineWord::Deliver => b"deliver",
            LineWord::Flow => b"flow",
            LineWord::Lose => b"lose",
            LineWord::Probe => b"probe",
            LineWord::Suspect => b"suspect",
            LineWord::Sync => b"sync",
            LineWord::Crash => b"crash",
            LineWord::Nudge => b"nudge",
            LineWord::Replace => b"replace",
            LineWord::Noise => b"noise",
        }
    }
}

#[tactic(auto, unfolding(crate::specs::FixedWords::line_word))]
pub(crate) fn line_word_of(words: &mut LineWords) -> Result<LineWord, LineFault>
    ensures { Gives (λ word. (word, words.new)) result (fixed.line_word.read words.old) }
{
    match written_so(&LINE_WORDS, words.next()?) {
        Some(word) => Ok(word),
        None => Err(LineFault::Bad(Reason::Word)),
    }
}

const OP_WORDS: [OpWord; 5] = [
    OpWord::Get,
    OpWord::Put,
    OpWord::Del,
    OpWord::Add,
    OpWord::Cas,
];

impl FixedWord for OpWord {
    ghost written = { fixed.op_word_text };

    fn text(&self) -> &'static [u8] {
        match self {
            OpWord::Get => b"get",
            OpWord::Put => b"put",
            OpWord::Del => b"del",
            OpWord::Add => b"add",
            OpWord::Cas => b"cas",
        }
    }
}

#[tactic(auto, unfolding(crate::specs::FixedWords::op_word))]
pub(crate) fn op_word_of(words: &mut LineWords) -> Result<OpWord, LineFault>
    ensures { Gives (λ word. (word, words.new)) result (fixed.op_word.read words.old) }
{
    match written_so(&OP_WORDS, words.next()?) {
        Some(word) => Ok(word),
        None => Err(LineFault::Bad(Reason::Word)),
    }
}

const CLAUSE_WORDS: [ClauseWord; 4] = [
    ClauseWord::Guard,
    ClauseWord::Set,
    ClauseWord::Plus,
    ClauseWord::Minus,
];

impl FixedWord for ClauseWord {
    ghost written = { fixed.clause_word_text };

    fn text(&self) -> &'static [u8] {
        match self {
            ClauseWord::Guard => b"guard",
            ClauseWord::Set => b"set",
            ClauseWord::Plus => b"plus",
            ClauseWord::Minus => b"minus",
        }
    }
}

#[tactic(auto, unfolding(crate::specs::FixedWords::clause_word))]
pub(crate) fn clause_word_of(words: &mut LineWords) -> Result<ClauseWord, LineFault>
    ensures { Gives (λ word. (word, words.new)) result (fixed.clause_word.read words.old) }
{
    match written_so(&CLAUSE_WORDS, words.next()?) {
        Some(word) => Ok(word),
        None => Err(LineFault::Bad(Reason::Word)),
    }
}

const NODE_WORDS: [NodeWord; 4] = [
    NodeWord::Sequencer,
    NodeWord::Coordinator,
    NodeWord::Replica,
    NodeWord::Client,
];

impl FixedWord for NodeWord {
    ghost written = { fixed.node_word_text };

    fn text(&self) -> &'static [u8] {
        match self {
            NodeWord::Sequencer => b"seq",
            NodeWord::Coordinator => b"coord",
            NodeWord::Replica => b"rep",
            NodeWord::Client => b"cli",
        }
    }
}

#[tactic(auto, unfolding(crate::specs::FixedWords::node_word))]
pub(crate) fn node_word_of(words: &mut LineWords) -> Result<NodeWord, LineFault>
    ensures { Gives (λ word. (word, words.new)) result (fixed.node_word.read words.old) }
{
    match written_so(&NODE_WORDS, words.next()?) {
        Some(word) => Ok(word),
        None => Err(LineFault::Bad(Reason::Word)),
    }
}
