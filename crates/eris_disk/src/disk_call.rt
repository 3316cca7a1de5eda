/// A write or a sync of a disk in memory.
#[derive(Clone, Copy, Debug, PartialEq, Eq)]
pub enum DiskCall {
    /// A write of `count` bytes at `at`, and whether it was answered Ok.
    Write { at: u64, count: u64, is_ok: bool },

    /// A sync, and whether it was answered Ok.
    Sync { is_ok: bool },
}
