/// What stands at a number of a part.
#[derive(Clone, Copy, Debug, PartialEq, Eq)]
pub enum Entry {
    /// Its place, or a place of the packet that is held there, is dropped for good.
    Dropped,
    /// A packet is held there, no place of it is dropped for good, and each place of it that is dropped
    /// for a time is found.
    Txn,
    /// Neither.
    Gap,
}
