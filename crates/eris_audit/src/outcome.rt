use eris_base::{Dup, NoMemory, Same};
use std::alloc::Global;

/// What became of a transaction that stands in the order.
#[derive(Clone, Copy, Debug, PartialEq, Eq)]
pub enum Outcome {
    /// An independent transaction, whose operations were executed.
    Done,
    /// A general transaction whose settings were made.
    Committed,
    /// A general transaction that wrote nothing.
    Aborted,
    /// A general transaction that isn't decided yet; it has written nothing.
    Pending,
}

impl Dup for Outcome {
    fn copy(&self, _: Global) -> Result<Outcome, NoMemory> {
        Ok(*self)
    }
}

impl Same for Outcome {
    fn same(&self, other: &Outcome) -> bool {
        *self == *other
    }
}
