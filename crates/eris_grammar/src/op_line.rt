ghost use Rattle.std.specs.Prelude.{◌≡◌};
ghost use Rattle.eris_words.specs.Forms.{Gives, next_item};
ghost use Rattle.eris_grammar.specs.OpForms as form;
ghost use Rattle.eris_event.specs.EventRanges.{most};

use crate::fields::{key_of, value_of};
use crate::fixed_words::{OpWord, op_word_of};
use eris_base::Row;
use eris_txn::Op;
use eris_words::{LineFault, LineWords, Reason};
use std::alloc::Global;

#[tactic(auto, unfolding(crate::specs::OpForms::op_behind))]
fn op_behind(version: u8, word: OpWord, words: &mut LineWords) -> Result<Op, LineFault>
    ensures { Gives (λ op. (op, words.new)) result (form.op_behind version word words.old) }
{
    match word {
        OpWord::Get => Ok(Op::Get(key_of(version, words)?)),
        OpWord::Put => {
            let key = key_of(version, words)?;
            Ok(Op::Put(key, value_of(words)?))
        }
        OpWord::Del => Ok(Op::Del(key_of(version, words)?)),
        OpWord::Add => {
            let key = key_of(version, words)?;
            Ok(Op::Add(key, value_of(words)?))
        }
        OpWord::Cas => {
            let key = key_of(version, words)?;
            let expected = value_of(words)?;
            Ok(Op::Cas(key, expected, value_of(words)?))
        }
    }
}

#[tactic(auto, unfolding(crate::specs::OpForms::op))]
fn op_of(version: u8, words: &mut LineWords) -> Result<Op, LineFault>
    ensures { Gives (λ op. (op, words.new)) result ((form.op version).read words.old) }
{
    let word = op_word_of(words)?;
    op_behind(version, word, words)
}

// An operation behind a `;`.
fn next_op(version: u8, words: &mut LineWords) -> Result<Op, LineFault>
    ensures { Gives (λ op. (op, words.new)) result (next_item (form.op version) words.old) }
{
    words.expect(b";")?;
    op_of(version, words)
}

// Operations, a `;` between each two, to the end of the line.
#[tactic(auto, unfolding(crate::specs::OpForms::all_ops))]
fn all_ops(alloc: Global, version: u8, words: &mut LineWords) -> Result<Row<Op>, LineFault>
    ensures { Gives (λ ops. ops) result (form.all_ops version words.old) }
{
    let mut ops = Row::new(alloc);
    ops.push(op_of(version, words)?)?;
    while !words.is_at_end() {
        ops.push(next_op(version, words)?)?;
    }
    Ok(ops)
}

pub(crate) fn most(version: u8) -> usize
    ensures { result ≡ most version }
{
    if version == 1 { 16 } else { 32 }
}

/// The operations of a transaction, to the end of the line, in the ranges of version 1 or 2.
///
/// # Errors
///
/// `Bad` exactly where the words are no such operations; the first word that doesn't fit gives the
/// reason. `NoMemory` where an allocation was refused.
#[tactic(auto, unfolding(crate::specs::OpForms::ops_of))]
pub fn ops_of(alloc: Global, version: u8, words: &mut LineWords) -> Result<Row<Op>, LineFault>
    ensures { Gives (λ ops. ops) result (form.ops_of version words.old) }
{
    let ops = all_ops(alloc, version, words)?;
    if ops.len() > most(version) {
        return Err(LineFault::Bad(Reason::TooMany));
    }
    Ok(ops)
}
