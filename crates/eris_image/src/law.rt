ghost use Rattle.std.specs.Prelude.{◌≡◌, ◌≢◌, ◌+◌, ℕ, List, [], ◌∷◌, ◌++◌, length, take};
ghost use Rattle.std.specs.List.{AllByRecursion};
ghost use Rattle.eris_rules.specs.declared.coord_input.CoordInput.{CoordInput};
ghost use Rattle.eris_base.specs.ConfigLimits.{ConfigValue};
ghost use Rattle.eris_rules.specs.CoordStates.{first_coordinator};
ghost use Rattle.eris_rules.specs.Coordinators.{coord_step};
ghost use Rattle.eris_image.specs.InputRuns.{coord_after};
ghost use Rattle.eris_image.specs.Images.{body_of, behind_gate, record_of, records_of, journal_of, journal_length, HasRecord, IsImage, IsDamagedAt};

/// Bytes are an image of at most one list of inputs. The call does nothing; its contract is the law.
pub fn images_have_one_list()
    ensures { (some other : List CoordInput) (bytes : List ℕ) → IsImage some bytes → IsImage other bytes → some ≡ other }
{}

/// Bytes that agree with an image up to and with its closed gate are an image of the same inputs, whatever
/// stands behind. The call does nothing; its contract is the law.
pub fn closed_gates_end_an_image()
    ensures { (inputs : List CoordInput) (image bytes : List ℕ) → IsImage inputs image
        → take (journal_length inputs) bytes ≡ take (journal_length inputs) image → IsImage inputs bytes }
{}

/// Where a whole record and a closed gate stand behind the gate that ends an image, any byte that is written
/// over that gate leaves an image: of one input more where it opens the gate, and of the inputs else. The call
/// does nothing; its contract is the law.
pub fn gates_add_one_input()
    ensures shut { (inputs : List CoordInput) (input : CoordInput) (gate last : ℕ) (rest : List ℕ) → AllByRecursion HasRecord inputs → gate ≢ 1
        → IsImage inputs (records_of inputs ++ gate ∷ (behind_gate input ++ last ∷ rest)) }
    ensures opened { (inputs : List CoordInput) (input : CoordInput) (last : ℕ) (rest : List ℕ) → AllByRecursion HasRecord inputs → HasRecord input
        → last ≢ 1 → IsImage (inputs ++ input ∷ []) (records_of inputs ++ 1 ∷ (behind_gate input ++ last ∷ rest)) }
{}

/// Bytes with a first record that isn't whole are no image, and that record's gate has one place. The call
/// does nothing; its contract is the law.
pub fn damage_has_one_place()
    ensures no_image { (at : ℕ) (inputs : List CoordInput) (bytes : List ℕ) → IsDamagedAt at bytes → IsImage inputs bytes → ⊥ }
    ensures one { (some other : ℕ) (bytes : List ℕ) → IsDamagedAt some bytes → IsDamagedAt other bytes → some ≡ other }
{}

/// One input more makes a journal longer by five bytes and the body. The call does nothing; its contract is
/// the law.
pub fn journals_grow_by_records()
    ensures start { journal_length [] ≡ 1 }
    ensures more { (inputs : List CoordInput) (input : CoordInput) → journal_length (inputs ++ input ∷ []) ≡ journal_length inputs + 5 + length (body_of input) }
{}

/// After one input more the coordinator is where that input's step takes it. The call does nothing; its
/// contract is the law.
pub fn inputs_step_the_coordinator()
    ensures start { (config : ConfigValue) → coord_after config [] ≡ first_coordinator }
    ensures more { (config : ConfigValue) (inputs : List CoordInput) (input : CoordInput) → coord_after config (inputs ++ input ∷ []) ≡ (coord_step config (coord_after config inputs) input).state }
{}
