ghost use Rattle.std.specs.Prelude.{◌≡◌, ◌<◌, ◌∷◌, length, IfSome, MatchOption};
ghost use Rattle.eris_words.specs.declared.reason.Reason.TheVariants as reason;
ghost use Rattle.eris_grammar.specs.Fields as field;
ghost use Rattle.eris_words.specs.Forms.{Gives, said};

use eris_base::Row;
use eris_words::{LineFault, LineWords, Reason};
use std::alloc::Global;

fn hex_value(digit: u8) -> Option<u8>
    ensures exact { result ≡ field.hex_value digit }
    ensures fits { IfSome result (λ value. value < 16) }
{
    match digit {
        b'0'..=b'9' => Some(digit - b'0'),
        b'a'..=b'f' => Some(digit - b'a' + 10),
        _ => None,
    }
}

fn byte_of(high: u8, low: u8) -> Option<u8>
    ensures { result ≡ field.byte_of (field.hex_value high) (field.hex_value low) }
{
    Some(hex_value(high)? * 16 + hex_value(low)?)
}

// Bytes as pairs of digits.
#[tactic(auto, using(crate::proofs::HexSteps::pair_steps))]
fn read_pairs(alloc: Global, digits: &[u8]) -> Result<Row<u8>, LineFault>
    ensures { Gives (λ bytes. bytes) result (said (field.read_pairs digits.now) reason.Hex) }
{
    let mut bytes = Row::new(alloc);
    let mut rest = digits;
    while let Some((high, low, after)) = first_pair(rest) {
        let Some(byte) = byte_of(high, low) else {
            return Err(LineFault::Bad(Reason::Hex));
        };
        bytes.push(byte)?;
        rest = after;
    }
    if rest.is_empty() {
        Ok(bytes)
    } else {
        Err(LineFault::Bad(Reason::Hex))
    }
}

fn first_pair(digits: &[u8]) -> Option<(u8, u8, &[u8])>
    ensures { MatchOption result (length digits.now < 2) (λ pair. digits.now ≡ pair.0 ∷ pair.1 ∷ pair.2.now) }
{
    match digits {
        [high, low, after @ ..] => Some((*high, *low, after)),
        _ => None,
    }
}

fn read_hex(alloc: Global, word: &[u8]) -> Result<Row<u8>, LineFault>
    ensures { Gives (λ bytes. bytes) result (said (field.read_hex word.now) reason.Hex) }
{
    if word == b"-".as_slice() {
        return Ok(Row::new(alloc));
    }
    if word.is_empty() || word.len() > 512 {
        return Err(LineFault::Bad(Reason::Hex));
    }
    read_pairs(alloc, word)
}

/// Bytes, `-` for none, else 1 to 256 as pairs of digits.
#[tactic(auto, unfolding(crate::specs::Fields::hex))]
pub(crate) fn hex_of(alloc: Global, words: &mut LineWords) -> Result<Row<u8>, LineFault>
    ensures { Gives (λ bytes. (bytes, words.new)) result (field.hex.read words.old) }
{
    let word = words.next()?;
    read_hex(alloc, word)
}
