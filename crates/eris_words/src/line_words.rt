ghost use Rattle.std.specs.Prelude.{◌≡◌, ◌==◌, ◌<◌, ◌≤◌, [], ◌∷◌, drop, length, IfErr, MatchOption, OnOk};
ghost use Rattle.std.specs.List.{position};
ghost use Rattle.eris_words.specs.Cuts.{is_space, words};
ghost use Rattle.eris_words.specs.Forms.{Gives, expect, is_next, next_word};

use crate::line_fault::LineFault;
use crate::reason::Reason;
use std::marker::Model;

/// The words of a line that are left to read. Contracts see them as a list.
#[derive(Drop)]
pub struct LineWords<'a> {
    text: &'a [u8],
    ended: bool,
}

impl<'a> Model for LineWords<'a> {
    ghost use Rattle.std.specs.Prelude.{List, ℕ, [], if◌then◌else◌};
    ghost use Rattle.eris_words.specs.Cuts.{words};

    ghost Value = { List (List ℕ) };

    ghost view = { λ w. if w.ended then [] else words w.text.now };
}

impl<'a> LineWords<'a> {
    /// The words of a line, of which none was read.
    pub fn new(line: &'a [u8]) -> LineWords<'a>
        ensures { result ≡ words line.now }
    {
        LineWords {
            text: line,
            ended: false,
        }
    }

    /// The next word, which is lent from the line.
    pub fn pop(&mut self) -> Option<&'a [u8]>
        ensures { MatchOption result (self.old ≡ []) (λ word. self.old ≡ word.now ∷ self.new) }
    {
        if self.ended {
            return None;
        }
        let text = self.text;
        match first_cut(text) {
            Some((word, rest)) => {
                self.text = rest;
                Some(word)
            }
            None => {
                self.ended = true;
                Some(text)
            }
        }
    }

    /// The next word; `End` where there is none.
    pub fn next(&mut self) -> Result<&'a [u8], LineFault>
        ensures { Gives (λ word. (word.now, self.new)) result (next_word self.old) }
    {
        match self.pop() {
            Some(word) => Ok(word),
            None => Err(LineFault::Bad(Reason::End)),
        }
    }

    /// Whether no word is left.
    #[tactic(auto, using(crate::proofs::WordCuts::word_cuts))]
    pub fn is_at_end(&self) -> bool
        ensures { result ≡ (length self.now == 0) }
    {
        self.ended
    }

    /// Whether this word is the next.
    pub fn is_at(&self, word: &[u8]) -> bool
        ensures { result ≡ is_next word.now self.now }
    {
        if self.ended {
            return false;
        }
        match first_cut(self.text) {
            Some((first, _)) => first == word,
            None => self.text == word,
        }
    }

    /// Passes over this word.
    pub fn expect(&mut self, word: &[u8]) -> Result<(), LineFault>
        ensures { Gives (λ _. self.new) result (expect word.now self.old) }
    {
        if self.next()? == word {
            Ok(())
        } else {
            Err(LineFault::Bad(Reason::Word))
        }
    }

    /// Whether the line ends here.
    pub fn end(&self) -> Result<(), LineFault>
        ensures ok { OnOk result (self.now ≡ []) }
        ensures err { IfErr result (λ fault. (fault ≡ LineFault.Bad Reason.End) × (0 < length self.now)) }
    {
        if self.is_at_end() {
            Ok(())
        } else {
            Err(LineFault::Bad(Reason::End))
        }
    }
}

// The first word, and what follows the space behind it. None where the text is a word.
#[tactic(auto, using(crate::proofs::WordCuts::word_cuts))]
fn first_cut(text: &[u8]) -> Option<(&[u8], &[u8])>
    ensures { MatchOption result (words text.now ≡ text.now ∷ []) (λ cut. words text.now ≡ cut.0.now ∷ words cut.1.now) }
{
    let end = space_in(text)?;
    Some((&text[..end], from(text, end + 1)))
}

fn from(text: &[u8], at: usize) -> &[u8]
    requires { at ≤ length text.now }
    ensures { result.now ≡ drop at text.now }
{
    &text[at..]
}

fn space_in(text: &[u8]) -> Option<usize>
    ensures { result ≡ position is_space text.now }
{
    text.iter().position(|byte| *byte == b' ')
}
