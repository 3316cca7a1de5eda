ghost use Rattle.std.specs.Prelude.{◌≡◌, ◌⊎◌};
ghost use Rattle.eris_words.specs.Forms.{Gives};
ghost use Rattle.eris_grammar.specs.LineForms.{line_of};

use crate::event_line::said_by;
use crate::line::Line;
use eris_words::{LineFault, LineWords};
use std::alloc::Global;

/// What a line behind a script's header says, without the LF that ends it and one CR before that, in a
/// script of version 1 or 2. It takes time linear in the length of the line, and copies no word.
///
/// # Errors
///
/// `Bad` exactly where the line is of no form. Words are read from the left, and the first one that
/// doesn't fit gives the reason; a line whose words all fit is refused for the transaction that they
/// make. `NoMemory` where an allocation was refused.
#[tactic(auto, unfolding(crate::specs::LineForms::line_of))]
pub fn parse_line(alloc: Global, version: u8, line: &[u8]) -> Result<Line, LineFault>
    requires { (version ≡ 1) ⊎ (version ≡ 2) }
    ensures { Gives (λ said. said) result (line_of version line.now) }
{
    match line {
        [] | [b'#', ..] => Ok(Line::Skip),
        _ => said_by(alloc, version, &mut LineWords::new(line)),
    }
}
