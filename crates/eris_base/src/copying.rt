ghost use Rattle.std.specs.Prelude.{◌≡◌, ◌↔◌, IsTrue, IfOk};

use crate::ids::{ClientId, Epoch, Node, Phase, Place, ReplicaId, ShardId, TxnId, View};
use crate::no_memory::NoMemory;
use crate::row::Row;
use std::alloc::Global;

/// What can be copied, which may take memory.
pub trait Dup: Drop {
    /// An equal value, which keeps `alloc` where it has a list.
    ///
    /// # Errors
    ///
    /// [`NoMemory`] where an allocation was refused.
    fn copy(&self, alloc: Global) -> Result<Self, NoMemory>
        ensures { IfOk result (λ made. made ≡ self.now) };
}

/// What can be compared exactly, also where a comparison can't be derived. It takes no memory.
pub trait Same {
    /// Whether the two are equal.
    fn same(&self, other: &Self) -> bool
        ensures { IsTrue result ↔ (self.now ≡ other.now) };
}

impl Dup for bool {
    fn copy(&self, _: Global) -> Result<bool, NoMemory> {
        Ok(*self)
    }
}

impl Same for bool {
    fn same(&self, other: &bool) -> bool {
        *self == *other
    }
}

impl Dup for u8 {
    fn copy(&self, _: Global) -> Result<u8, NoMemory> {
        Ok(*self)
    }
}

impl Same for u8 {
    fn same(&self, other: &u8) -> bool {
        *self == *other
    }
}

impl Dup for u32 {
    fn copy(&self, _: Global) -> Result<u32, NoMemory> {
        Ok(*self)
    }
}

impl Same for u32 {
    fn same(&self, other: &u32) -> bool {
        *self == *other
    }
}

impl Dup for u64 {
    fn copy(&self, _: Global) -> Result<u64, NoMemory> {
        Ok(*self)
    }
}

impl Same for u64 {
    fn same(&self, other: &u64) -> bool {
        *self == *other
    }
}

impl Dup for ShardId {
    fn copy(&self, _: Global) -> Result<ShardId, NoMemory> {
        Ok(*self)
    }
}

impl Same for ShardId {
    fn same(&self, other: &ShardId) -> bool {
        *self == *other
    }
}

impl Dup for ReplicaId {
    fn copy(&self, _: Global) -> Result<ReplicaId, NoMemory> {
        Ok(*self)
    }
}

impl Same for ReplicaId {
    fn same(&self, other: &ReplicaId) -> bool {
        *self == *other
    }
}

impl Dup for ClientId {
    fn copy(&self, _: Global) -> Result<ClientId, NoMemory> {
        Ok(*self)
    }
}

impl Same for ClientId {
    fn same(&self, other: &ClientId) -> bool {
        *self == *other
    }
}

impl Dup for Epoch {
    fn copy(&self, _: Global) -> Result<Epoch, NoMemory> {
        Ok(*self)
    }
}

impl Same for Epoch {
    fn same(&self, other: &Epoch) -> bool {
        *self == *other
    }
}

impl Dup for View {
    fn copy(&self, _: Global) -> Result<View, NoMemory> {
        Ok(*self)
    }
}

impl Same for View {
    fn same(&self, other: &View) -> bool {
        *self == *other
    }
}

impl Dup for Place {
    fn copy(&self, _: Global) -> Result<Place, NoMemory> {
        Ok(*self)
    }
}

impl Same for Place {
    fn same(&self, other: &Place) -> bool {
        *self == *other
    }
}

impl Dup for TxnId {
    fn copy(&self, _: Global) -> Result<TxnId, NoMemory> {
        Ok(*self)
    }
}

impl Same for TxnId {
    fn same(&self, other: &TxnId) -> bool {
        *self == *other
    }
}

impl Dup for Node {
    fn copy(&self, _: Global) -> Result<Node, NoMemory> {
        Ok(*self)
    }
}

impl Same for Node {
    fn same(&self, other: &Node) -> bool {
        *self == *other
    }
}

impl Dup for Phase {
    fn copy(&self, _: Global) -> Result<Phase, NoMemory> {
        Ok(*self)
    }
}

impl Same for Phase {
    fn same(&self, other: &Phase) -> bool {
        *self == *other
    }
}

impl<A: Dup, B: Dup> Dup for (A, B) {
    fn copy(&self, alloc: Global) -> Result<(A, B), NoMemory> {
        Ok((self.0.copy(alloc)?, self.1.copy(alloc)?))
    }
}

impl<A: Same, B: Same> Same for (A, B) {
    fn same(&self, other: &(A, B)) -> bool {
        self.0.same(&other.0) && self.1.same(&other.1)
    }
}

impl<T: Dup> Dup for Option<T> {
    fn copy(&self, alloc: Global) -> Result<Option<T>, NoMemory> {
        match self {
            Some(item) => Ok(Some(item.copy(alloc)?)),
            None => Ok(None),
        }
    }
}

impl<T: Same> Same for Option<T> {
    fn same(&self, other: &Option<T>) -> bool {
        match (self, other) {
            (Some(item), Some(another)) => item.same(another),
            (None, None) => true,
            _ => false,
        }
    }
}

impl<T: Dup> Dup for Row<T> {
    fn copy(&self, alloc: Global) -> Result<Row<T>, NoMemory> {
        let items = self.as_slice();
        let mut made = Row::new(alloc);
        for item in items {
            made.push(item.copy(alloc)?)?;
        }
        Ok(made)
    }
}

fn same_items<T: Same>(some: &[T], others: &[T]) -> bool
    ensures { IsTrue result ↔ (some.now ≡ others.now) }
{
    let mut left = some;
    let mut right = others;
    loop {
        match (left, right) {
            ([], []) => return true,
            ([one, more @ ..], [another, rest @ ..]) => {
                if !one.same(another) {
                    return false;
                }
                left = more;
                right = rest;
            }
            _ => return false,
        }
    }
}

impl<T: Same> Same for Row<T> {
    fn same(&self, other: &Row<T>) -> bool {
        same_items(self.as_slice(), other.as_slice())
    }
}
