ghost use Rattle.std.specs.Prelude.{◌≡◌, ◌++◌, OnOk};
ghost use Rattle.std.specs.List.{flat_map};
ghost use Rattle.eris_words.specs.OpText.{op_words, next_op_words, ops_words};
ghost use Rattle.eris_words.specs.Words.{spaced};

use crate::words::{put_key, put_number, put_word};
use eris_base::{NoMemory, Row};
use eris_txn::Op;

/// Adds operations, with `;` between them.
pub fn put_ops(out: &mut Row<u8>, ops: &[Op]) -> Result<(), NoMemory>
    ensures { OnOk result (out.new ≡ out.old ++ spaced (ops_words ops.now)) }
{
    match ops {
        [] => Ok(()),
        [op, more @ ..] => {
            put_op(out, op)?;
            put_next_ops(out, more)
        }
    }
}

fn put_next_ops(out: &mut Row<u8>, ops: &[Op]) -> Result<(), NoMemory>
    ensures { OnOk result (out.new ≡ out.old ++ spaced (flat_map next_op_words ops.now)) }
{
    for op in ops {
        put_word(out, b";")?;
        put_op(out, op)?;
    }
    Ok(())
}

fn put_op(out: &mut Row<u8>, op: &Op) -> Result<(), NoMemory>
    ensures { OnOk result (out.new ≡ out.old ++ spaced (op_words op.now)) }
{
    match op {
        Op::Get(key) => {
            put_word(out, b"get")?;
            put_key(out, key)
        }
        Op::Put(key, value) => {
            put_word(out, b"put")?;
            put_key(out, key)?;
            put_number(out, *value)
        }
        Op::Del(key) => {
            put_word(out, b"del")?;
            put_key(out, key)
        }
        Op::Add(key, value) => {
            put_word(out, b"add")?;
            put_key(out, key)?;
            put_number(out, *value)
        }
        Op::Cas(key, expected, value) => {
            put_word(out, b"cas")?;
            put_key(out, key)?;
            put_number(out, *expected)?;
            put_number(out, *value)
        }
    }
}
