ghost use Rattle.std.specs.Prelude.{◌≡◌, ℕ, List, Some};
ghost use Rattle.eris_law_migrate.specs.Meanings.{MeansTheSame};
ghost use Rattle.eris_migrate.specs.Migrated.{migrated};
ghost use Rattle.eris_migrate.specs.Unread.{IsVersion1, unread};
ghost use Rattle.eris_words.specs.declared.reason.Reason.TheVariants as reason;

/// A SCRIPT OF VERSION 1 AND ITS MIGRATED TEXT MEAN THE SAME. The text is a script of version 2, of the same config and
/// the same events, and no longer than the script. Line by line, version 2 reads in it what version 1 reads in the
/// script, so each line keeps its number; only a last line that is a CR alone is left out, which says nothing.
/// Migrating the text once more is refused at its first line, with `Header`. The call does nothing; its contract is
/// the law.
#[tactic(auto, using(crate::proofs::MigratedTexts::means_the_same, crate::proofs::MigratedTexts::refused_again))]
pub fn migrated_scripts_mean_the_same()
    ensures same { (bytes : List ℕ) → IsVersion1 bytes → MeansTheSame bytes (migrated bytes) }
    ensures again { (bytes : List ℕ) → IsVersion1 bytes → unread (migrated bytes) ≡ Some (record { line = 1; reason = reason.Header }) }
{}
