ghost use Rattle.std.specs.Prelude.{◌≡◌, ◌&&◌, ℕ, List, Option};
ghost use Rattle.std.specs.List.{list_all};
ghost use Rattle.eris_words.specs.Forms.{Gives};
ghost use Rattle.eris_check.specs.ReportFields as field;
ghost use Rattle.eris_report_range.specs.ReportRanges.{is_ranged_length};

use crate::fields::{number_in, read_joined};
use eris_base::{Row, ShardId};
use eris_txn::OpAnswer;
use eris_words::{LineFault, LineWords, Reason};
use std::alloc::Global;

/// What one word says.
pub(crate) trait Item: Drop {
    ghost said: { List ℕ → Option Self };

    /// What the word says. None exactly where it is no word of the kind.
    fn read(word: &[u8]) -> Option<Self>
        ensures { result ≡ said word.now };
}

// The highest shard of a place.
const LAST_SHARD: u64 = 63;

impl Item for (ShardId, u32) {
    ghost said = { field.read_place };

    fn read(word: &[u8]) -> Option<(ShardId, u32)> {
        let (shard, number) = read_joined(word, b':', LAST_SHARD)?;
        Some((ShardId(shard as u8), number))
    }
}

impl Item for Option<u64> {
    ghost said = { field.read_value };

    fn read(word: &[u8]) -> Option<Option<u64>> {
        if word == b"-".as_slice() {
            return Some(None);
        }
        Some(Some(number_in(word, u64::MAX)?))
    }
}

impl Item for OpAnswer {
    ghost said = { field.read_op_answer };

    fn read(word: &[u8]) -> Option<OpAnswer> {
        if word == b"-".as_slice() {
            Some(OpAnswer::Absent)
        } else if word == b"ok".as_slice() {
            Some(OpAnswer::Done)
        } else if word == b"yes".as_slice() {
            Some(OpAnswer::Yes)
        } else if word == b"no".as_slice() {
            Some(OpAnswer::No)
        } else {
            Some(OpAnswer::Value(number_in(word, u64::MAX)?))
        }
    }
}

/// Items, a word each, to the end of the line.
#[tactic(auto, unfolding(crate::specs::ReportFields::items), using(crate::proofs::ItemSteps::item_steps))]
pub(crate) fn items_of<T: Item>(alloc: Global, words: &mut LineWords) -> Result<Row<T>, LineFault>
    ensures { Gives (λ items. items) result (field.items T.said words.old) }
{
    let mut items = Row::new(alloc);
    while let Some(word) = words.pop() {
        let Some(item) = T::read(word) else {
            return Err(LineFault::Bad(Reason::Word));
        };
        items.push(item)?;
    }
    Ok(items)
}

/// 1 to 32 items, a word each, to the end of the line.
pub(crate) fn few_items_of<T: Item>(
    alloc: Global,
    words: &mut LineWords,
) -> Result<Row<T>, LineFault>
    ensures { Gives (λ items. items) result (field.few_items T.said words.old) }
{
    let items = items_of(alloc, words)?;
    if !is_few(items.len()) {
        return Err(LineFault::Bad(Reason::TooMany));
    }
    Ok(items)
}

fn is_few(count: usize) -> bool
    ensures { result ≡ is_ranged_length count }
{
    count > 0 && count <= 32
}
