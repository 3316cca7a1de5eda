ghost use Rattle.std.specs.Prelude.{ℕ, IfErr, List};
ghost use Rattle.eris_grammar.specs.Headers.{header_of};
ghost use Rattle.eris_grammar.specs.LineForms.{line_of};
ghost use Rattle.eris_law_reasons.specs.Reasons.{IsOfGrammar};

/// THE GRAMMAR REFUSES A LINE FOR A REASON OF ITS OWN, whatever its bytes are: a first line that is no header, and a line
/// behind a header in the grammar of whichever version. What the state of a system would say of an event never comes
/// in. The call does nothing; its contract is the law.
pub fn lines_are_refused_by_the_grammar()
    ensures headers { (line : List ℕ) → IfErr (header_of line) IsOfGrammar }
    ensures lines { (version : ℕ) (line : List ℕ) → IfErr (line_of version line) IsOfGrammar }
{}
