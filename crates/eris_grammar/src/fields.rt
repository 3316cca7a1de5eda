ghost use Rattle.std.specs.Prelude.{◌≡◌, ◌≤◌, ◌==◌, IfOk, IfSome, if◌then◌else◌};
ghost use Rattle.eris_words.specs.Decimal.{read_decimal};
ghost use Rattle.eris_grammar.specs.Fields as field;
ghost use Rattle.eris_words.specs.Forms.{Gives, ended};
ghost use Rattle.eris_event.specs.EventRanges.{last_shard};

use eris_base::{ClientId, ReplicaId, ShardId, TxnId};
use eris_txn::{Key, Name};
use eris_words::{LineFault, LineWords, Reason, cut, read_number};

// The highest number of a client, of a shard and of a replica that a line can name.
const LAST_NODE: u64 = 255;

fn number_in(word: &[u8], limit: u64) -> Option<u64>
    ensures exact { result ≡ read_decimal limit word.now }
    ensures fits { IfSome result (λ n. n ≤ limit) }
{
    read_number(word, limit)
}

#[tactic(auto, unfolding(crate::specs::Fields::number))]
fn number_of(words: &mut LineWords, limit: u64) -> Result<u64, LineFault>
    ensures gives { Gives (λ n. (n, words.new)) result ((field.number limit).read words.old) }
    ensures fits { IfOk result (λ n. n ≤ limit) }
{
    let Some(number) = number_in(words.next()?, limit) else {
        return Err(LineFault::Bad(Reason::Number));
    };
    Ok(number)
}

#[tactic(auto, unfolding(crate::specs::Fields::count))]
pub(crate) fn count_of(words: &mut LineWords) -> Result<u32, LineFault>
    ensures { Gives (λ n. (n, words.new)) result (field.count.read words.old) }
{
    Ok(number_of(words, u64::from(u32::MAX))? as u32)
}

#[tactic(auto, unfolding(crate::specs::Fields::value))]
pub(crate) fn value_of(words: &mut LineWords) -> Result<u64, LineFault>
    ensures { Gives (λ n. (n, words.new)) result (field.value.read words.old) }
{
    number_of(words, u64::MAX)
}

#[tactic(auto, unfolding(crate::specs::Fields::client))]
pub(crate) fn client_of(words: &mut LineWords) -> Result<ClientId, LineFault>
    ensures { Gives (λ c. (c, words.new)) result (field.client.read words.old) }
{
    Ok(ClientId(number_of(words, LAST_NODE)? as u8))
}

fn read_dotted(word: &[u8], first: u64, second: u64) -> Option<(u64, u64)>
    ensures exact { result ≡ field.read_dotted first second word.now }
    ensures fits { IfSome result (λ p. (p.0 ≤ first) × (p.1 ≤ second)) }
{
    let (front, rest) = cut(word, b'.');
    Some((number_in(front, first)?, number_in(rest, second)?))
}

#[tactic(auto, unfolding(crate::specs::Fields::dotted))]
fn dotted_of(words: &mut LineWords, first: u64, second: u64) -> Result<(u64, u64), LineFault>
    ensures gives { Gives (λ p. (p, words.new)) result ((field.dotted first second).read words.old) }
    ensures fits { IfOk result (λ p. (p.0 ≤ first) × (p.1 ≤ second)) }
{
    match read_dotted(words.next()?, first, second) {
        Some(numbers) => Ok(numbers),
        None => Err(LineFault::Bad(Reason::Number)),
    }
}

#[tactic(auto, unfolding(crate::specs::Fields::two_words))]
fn two_words_of(words: &mut LineWords, first: u64, second: u64) -> Result<(u64, u64), LineFault>
    ensures gives { Gives (λ p. (p, words.new)) result ((field.two_words first second).read words.old) }
    ensures fits { IfOk result (λ p. (p.0 ≤ first) × (p.1 ≤ second)) }
{
    let front = number_of(words, first)?;
    let rest = number_of(words, second)?;
    Ok((front, rest))
}

#[tactic(auto, unfolding(crate::specs::Fields::two_numbers))]
fn two_numbers_of(
    version: u8,
    words: &mut LineWords,
    first: u64,
    second: u64,
) -> Result<(u64, u64), LineFault>
    ensures gives { Gives (λ p. (p, words.new)) result ((field.two_numbers version first second).read words.old) }
    ensures fits { IfOk result (λ p. (p.0 ≤ first) × (p.1 ≤ second)) }
{
    if version == 1 {
        two_words_of(words, first, second)
    } else {
        dotted_of(words, first, second)
    }
}

#[tactic(auto, unfolding(crate::specs::Fields::txn))]
pub(crate) fn txn_of(version: u8, words: &mut LineWords) -> Result<TxnId, LineFault>
    ensures { Gives (λ id. (id, words.new)) result ((field.txn version).read words.old) }
{
    let (client, number) = two_numbers_of(version, words, LAST_NODE, u64::from(u32::MAX))?;
    Ok(TxnId {
        client: ClientId(client as u8),
        number: number as u32,
    })
}

#[tactic(auto, unfolding(crate::specs::Fields::replica))]
pub(crate) fn replica_of(
    version: u8,
    words: &mut LineWords,
) -> Result<(ShardId, ReplicaId), LineFault>
    ensures { Gives (λ r. (r, words.new)) result ((field.replica version).read words.old) }
{
    let (shard, replica) = two_numbers_of(version, words, LAST_NODE, LAST_NODE)?;
    Ok((ShardId(shard as u8), ReplicaId(replica as u8)))
}

fn last_shard(version: u8) -> u64
    ensures exact { result ≡ last_shard version }
    ensures fits { result ≤ 255 }
{
    if version == 1 { 15 } else { 63 }
}

fn read_key(version: u8, word: &[u8]) -> Option<Key>
    ensures { result ≡ field.read_key version word.now }
{
    let (shard, name) = cut(word, b'/');
    let shard = read_number(shard, last_shard(version))?;
    let name = Name::new(name)?;
    Some(Key {
        shard: ShardId(shard as u8),
        name,
    })
}

#[tactic(auto, unfolding(crate::specs::Fields::key))]
pub(crate) fn key_of(version: u8, words: &mut LineWords) -> Result<Key, LineFault>
    ensures gives { Gives (λ k. (k, words.new)) result ((field.key version).read words.old) }
{
    match read_key(version, words.next()?) {
        Some(key) => Ok(key),
        None => Err(LineFault::Bad(Reason::Key)),
    }
}
