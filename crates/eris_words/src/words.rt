ghost use Rattle.std.specs.Prelude.{◌≡◌, [], ◌∷◌, ◌++◌, OnOk};
ghost use Rattle.eris_words.specs.Decimal.{decimal};
ghost use Rattle.eris_words.specs.Words.{id_word, key_word, place_word, spaced};

use crate::number::append_decimal;
use eris_base::{NoMemory, Row, ShardId, TxnId};
use eris_txn::Key;

// Each function here adds words to a line that has its first one, a space before each.

/// Adds a word.
pub fn put_word(out: &mut Row<u8>, word: &[u8]) -> Result<(), NoMemory>
    ensures { OnOk result (out.new ≡ out.old ++ 32 ∷ word.now) }
{
    out.push(b' ')?;
    out.append(word)
}

/// Adds a number in decimal digits.
pub fn put_number(out: &mut Row<u8>, number: u64) -> Result<(), NoMemory>
    ensures { OnOk result (out.new ≡ out.old ++ 32 ∷ decimal number) }
{
    out.push(b' ')?;
    append_decimal(out, number)
}

/// Adds a name and a number.
pub fn put_count(out: &mut Row<u8>, name: &[u8], count: u32) -> Result<(), NoMemory>
    ensures { OnOk result (out.new ≡ out.old ++ spaced (name.now ∷ decimal count ∷ [])) }
{
    put_word(out, name)?;
    put_number(out, u64::from(count))
}

/// Adds an id: client and number, with `.` between them.
pub fn put_id(out: &mut Row<u8>, id: TxnId) -> Result<(), NoMemory>
    ensures { OnOk result (out.new ≡ out.old ++ 32 ∷ id_word id) }
{
    put_number(out, u64::from(id.client.0))?;
    out.push(b'.')?;
    append_decimal(out, u64::from(id.number))
}

/// Adds a key: shard and name, with `/` between them.
pub fn put_key(out: &mut Row<u8>, key: &Key) -> Result<(), NoMemory>
    ensures { OnOk result (out.new ≡ out.old ++ 32 ∷ key_word key.now) }
{
    put_number(out, u64::from(key.shard.0))?;
    out.push(b'/')?;
    out.append(key.name.bytes())
}

/// Adds a shard and a number, with `:` between them.
pub fn put_place(out: &mut Row<u8>, place: &(ShardId, u32)) -> Result<(), NoMemory>
    ensures { OnOk result (out.new ≡ out.old ++ 32 ∷ place_word place.now) }
{
    put_number(out, u64::from(place.0.0))?;
    out.push(b':')?;
    append_decimal(out, u64::from(place.1))
}
