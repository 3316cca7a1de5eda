ghost use Rattle.std.specs.Prelude.{◌≡◌, IfOk};

use crate::book::Entry;
use eris_base::{NoMemory, Row};
use std::alloc::Global;

/// The entry of these pairs.
pub(crate) fn entry_of(alloc: Global, pairs: &[(u32, u8)]) -> Result<Entry, NoMemory>
    ensures { IfOk result (λ entry. entry ≡ pairs.now) }
{
    let mut entry = Row::new(alloc);
    entry.append(pairs)?;
    Ok(entry)
}
