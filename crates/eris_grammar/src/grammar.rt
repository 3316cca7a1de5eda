ghost use Rattle.std.specs.Prelude.{◌≡◌, ◌↔◌, ℕ, Ok, List};
ghost use Rattle.eris_grammar.specs.declared.header.Header.{Header};
ghost use Rattle.eris_words.specs.Cuts.{words};
ghost use Rattle.eris_grammar.specs.Headers.{SpellsHeader, header_of};
ghost use Rattle.eris_grammar.specs.Spelling.{IsReadAsSpelled};

/// Every line of a script is read as just what it spells. A first line is a header exactly where its words
/// are those of the header; a later one is skipped exactly where it is empty or a comment, and says an
/// event, or a number of flows or losses, exactly where its words are the words of that and its numbers are
/// in their ranges. The call does nothing; its contract is the law.
pub fn every_line_is_read_as_spelled()
    ensures headers { (line : List ℕ) (header : Header) → (header_of line ≡ Ok header) ↔ SpellsHeader (words line) header }
    ensures lines { (version : ℕ) (line : List ℕ) → IsReadAsSpelled version line }
{}
