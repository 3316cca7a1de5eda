ghost use Rattle.std.specs.Prelude.{◌≡◌, [], ◌∷◌, OnOk};
ghost use Rattle.eris_base.specs.declared.ids.TxnId.{TxnId};
ghost use Rattle.eris_base.specs.TxnIds.{is_among};

use eris_base::{NoMemory, TxnId};
use std::alloc::Global;
use std::collections::BTreeSet;
use std::marker::Model;

/// Ids, each at most once. Contracts see them as a list, in which it tells only who is there.
#[derive(Drop)]
pub(crate) struct Ids {
    ids: BTreeSet<TxnId>,
}

impl Model for Ids {
    ghost use Rattle.std.specs.Prelude.{List};
    ghost use Rattle.eris_base.specs.declared.ids.TxnId.{TxnId};

    ghost Value = { List TxnId };

    ghost view = { λ kept. kept.ids.keys };
}

impl Ids {
    /// No ids. It takes no memory.
    pub fn new(alloc: Global) -> Ids
        ensures { result ≡ [] }
    {
        Ids {
            ids: BTreeSet::new(alloc),
        }
    }

    /// Adds an id, which may be there already.
    ///
    /// # Errors
    ///
    /// [`NoMemory`] where an allocation was refused.
    pub fn add(&mut self, id: TxnId) -> Result<(), NoMemory>
        ensures { OnOk result ((other : TxnId) → is_among other self.new ≡ is_among other (id ∷ self.old)) }
    {
        self.ids.insert(id)?;
        Ok(())
    }

    /// Whether an id is there. It takes no memory.
    pub fn has(&self, id: TxnId) -> bool
        ensures { result ≡ is_among id self.now }
    {
        self.ids.contains(&id)
    }
}
