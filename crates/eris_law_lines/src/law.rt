ghost use Rattle.std.specs.Prelude.{◌≡◌, ℕ, Ok, true, List, ◌∷◌, ◌++◌, map};
ghost use Rattle.eris_base.specs.Each.{Each};
ghost use Rattle.eris_event.specs.declared.event.Event.{Event};
ghost use Rattle.eris_event.specs.EventRanges.{fits_event};
ghost use Rattle.eris_words.specs.Cuts.{lines};
ghost use Rattle.eris_grammar.specs.declared.header.Header.{Header};
ghost use Rattle.eris_grammar.specs.EventText.{event_text};
ghost use Rattle.eris_grammar.specs.Scripts.{script};
ghost use Rattle.eris_law_lines.specs.EventScripts.{IsHeader, event_script, header_text};

/// A header in its limits and a line of each of some events, whatever bytes come behind them, are cut into just these
/// lines and those behind them. The call does nothing; its contract is the law.
pub fn written_lines_are_cut()
    ensures lines { (header : Header) (events : List Event) (rest : List ℕ) → IsHeader header → Each (λ event. fits_event header.version event ≡ true) events → lines (event_script header events ++ rest) ≡ header_text header ∷ map (event_text header.version) events ++ lines rest }
{}

/// A header in its limits and a line of each of some events, each in the ranges of the header's version, are a script
/// of the header's config and of just these events. The call does nothing; its contract is the law.
pub fn written_events_are_a_script()
    ensures script { (header : Header) (events : List Event) → IsHeader header → Each (λ event. fits_event header.version event ≡ true) events → script (event_script header events) ≡ Ok (record { config = header.config; events = events }) }
{}
