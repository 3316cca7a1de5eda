ghost use Rattle.std.specs.Prelude.{◌≡◌, IfOk};

use eris_base::{Dup, NoMemory};
use std::alloc::Global;
use std::collections::BTreeMap;

/// A map of the same keys, with copies of their values.
pub(crate) fn copied<K: Ord + Copy + Drop, V: Dup>(
    alloc: Global,
    from: &BTreeMap<K, V>,
) -> Result<BTreeMap<K, V>, NoMemory>
    ensures { IfOk result (λ made. made.entries ≡ from.now.entries) }
{
    let mut made = BTreeMap::new(alloc);
    for (key, value) in from {
        made.insert(*key, value.copy(alloc)?)?;
    }
    Ok(made)
}
