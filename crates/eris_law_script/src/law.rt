ghost use Rattle.std.specs.Prelude.{◌≡◌, ℕ, Some, Ok, List};
ghost use Rattle.std.specs.List.{flat_map};
ghost use Rattle.eris_base.specs.ConfigLimits.{ConfigValue};
ghost use Rattle.eris_grammar.specs.declared.line.Line.{Line};
ghost use Rattle.eris_grammar.specs.LineForms.{line_of};
ghost use Rattle.eris_grammar.specs.Scripts.{Script, events_of, script};
ghost use Rattle.eris_rules.specs.Good.{Good};
ghost use Rattle.eris_rules.specs.Runs.{run};
ghost use Rattle.eris_rules.specs.Worlds.{WorldState};
ghost use Rattle.eris_law_course.specs.Accepted.{AreEventsFit};
ghost use Rattle.eris_law_undisturbed.specs.Undisturbed.{AreAnswered, IsUndisturbed};
ghost use Rattle.eris_law_script.specs.UndisturbedScripts.{AreUndisturbed, BeginsUndisturbed, IsUndisturbedScript};

/// What is asked of events holds of all that a script says: the events of each line that is read are fit, and those of a whole
/// script. The call does nothing; its contract is the law.
pub fn scripts_are_fit()
    ensures lines { (version : ℕ) (text : List ℕ) (said : Line) → line_of version text ≡ Ok said → AreEventsFit (events_of said) }
    ensures scripts { (bytes : List ℕ) (whole : Script) → script bytes ≡ Ok whole → AreEventsFit whole.events }
{}

/// Whatever the script, the world after its run is good. The call does nothing; its contract is the law.
pub fn every_script_is_good()
    ensures script { (bytes : List ℕ) (whole : Script) (world : WorldState) → script bytes ≡ Ok whole → run whole.config whole.events ≡ Some world → Good world }
{}

/// An undisturbed script answers each transaction that it submits, and so does any script whose first lines are undisturbed. The
/// call does nothing; its contract is the law.
pub fn undisturbed_scripts_answer()
    ensures lines { (config : ConfigValue) (said : List Line) → AreUndisturbed config said → IsUndisturbed config (flat_map events_of said) }
    ensures script { (bytes : List ℕ) (made : Script) (world : WorldState) → IsUndisturbedScript bytes → script bytes ≡ Ok made → run made.config made.events ≡ Some world → AreAnswered world.history world.history }
    ensures script_front { (bytes : List ℕ) (made : Script) (world : WorldState) → (is : BeginsUndisturbed bytes) → script bytes ≡ Ok made → run made.config made.events ≡ Some world → (middle : WorldState) × (run made.config (flat_map events_of is.said) ≡ Some middle) × AreAnswered middle.history world.history }
{}
