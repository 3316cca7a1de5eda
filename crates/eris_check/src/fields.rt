ghost use Rattle.std.specs.Prelude.{◌≡◌, ◌≤◌, IfOk, IfSome};
ghost use Rattle.eris_grammar.specs.Fields as grammar;
ghost use Rattle.eris_words.specs.Decimal.{read_decimal};
ghost use Rattle.eris_words.specs.Forms.{Gives, pair};
ghost use Rattle.eris_check.specs.ReportFields as field;
ghost use Rattle.eris_check.specs.ReportForms as form;

use eris_base::{ClientId, TxnId};
use eris_words::{LineFault, LineWords, Reason, cut, read_number};

// The highest number of a client.
const LAST_CLIENT: u64 = 127;

pub(crate) fn number_in(word: &[u8], limit: u64) -> Option<u64>
    ensures exact { result ≡ read_decimal limit word.now }
    ensures fits { IfSome result (λ n. n ≤ limit) }
{
    read_number(word, limit)
}

#[tactic(auto, unfolding(eris_grammar::specs::Fields::number))]
fn number_of(words: &mut LineWords, limit: u64) -> Result<u64, LineFault>
    ensures gives { Gives (λ n. (n, words.new)) result ((grammar.number limit).read words.old) }
    ensures fits { IfOk result (λ n. n ≤ limit) }
{
    let Some(number) = number_in(words.next()?, limit) else {
        return Err(LineFault::Bad(Reason::Number));
    };
    Ok(number)
}

pub(crate) fn small_of(words: &mut LineWords) -> Result<u8, LineFault>
    ensures { Gives (λ n. (n, words.new)) result ((grammar.number 255).read words.old) }
{
    Ok(number_of(words, u64::from(u8::MAX))? as u8)
}

#[tactic(auto, unfolding(eris_grammar::specs::Fields::count))]
pub(crate) fn count_of(words: &mut LineWords) -> Result<u32, LineFault>
    ensures { Gives (λ n. (n, words.new)) result (grammar.count.read words.old) }
{
    Ok(number_of(words, u64::from(u32::MAX))? as u32)
}

/// A count behind its name.
#[tactic(auto, unfolding(crate::specs::ReportFields::labelled))]
pub(crate) fn labelled_of(words: &mut LineWords, name: &[u8]) -> Result<u32, LineFault>
    ensures { Gives (λ n. (n, words.new)) result ((field.labelled name.now).read words.old) }
{
    words.expect(name)?;
    count_of(words)
}

#[tactic(auto, unfolding(crate::specs::ReportFields::asker))]
fn asker_of(words: &mut LineWords) -> Result<ClientId, LineFault>
    ensures { Gives (λ c. (c, words.new)) result (field.asker.read words.old) }
{
    Ok(ClientId(number_of(words, LAST_CLIENT)? as u8))
}

fn number_from_one(word: &[u8]) -> Option<u32>
    ensures { result ≡ field.from_one (read_decimal 4294967295 word.now) }
{
    match number_in(word, u64::from(u32::MAX)) {
        Some(number) if number > 0 => Some(number as u32),
        _ => None,
    }
}

/// Two numbers with this byte between them, the first up to this limit and the second at least 1.
pub(crate) fn read_joined(word: &[u8], at: u8, limit: u64) -> Option<(u64, u32)>
    ensures exact { result ≡ field.read_joined at limit word.now }
    ensures fits { IfSome result (λ p. p.0 ≤ limit) }
{
    let (front, rest) = cut(word, at);
    Some((number_in(front, limit)?, number_from_one(rest)?))
}

#[tactic(auto, unfolding(crate::specs::ReportFields::joined))]
fn joined_of(words: &mut LineWords, at: u8, limit: u64) -> Result<(u64, u32), LineFault>
    ensures gives { Gives (λ p. (p, words.new)) result ((field.joined at limit).read words.old) }
    ensures fits { IfOk result (λ p. p.0 ≤ limit) }
{
    match read_joined(words.next()?, at, limit) {
        Some(numbers) => Ok(numbers),
        None => Err(LineFault::Bad(Reason::Number)),
    }
}

#[tactic(auto, unfolding(crate::specs::ReportFields::id))]
pub(crate) fn id_of(words: &mut LineWords) -> Result<TxnId, LineFault>
    ensures { Gives (λ id. (id, words.new)) result (field.id.read words.old) }
{
    let (client, number) = joined_of(words, b'.', LAST_CLIENT)?;
    Ok(TxnId {
        client: ClientId(client as u8),
        number,
    })
}

#[tactic(auto, unfolding(crate::specs::ReportForms::asker_and_id))]
pub(crate) fn asker_and_id(words: &mut LineWords) -> Result<(ClientId, TxnId), LineFault>
    ensures { Gives (λ p. (p, words.new)) result (form.asker_and_id.read words.old) }
{
    let asker = asker_of(words)?;
    let id = id_of(words)?;
    Ok((asker, id))
}
