use eris_txn::{Guard, Setting};

/// A clause of a plan, as a line has it: clauses of both kinds may stand there in any order
/// (docs/SCRIPT.md).
#[derive(Clone, Copy, Debug)]
pub enum Clause {
    /// `guard K N`
    Guard(Guard),
    /// `set K N`, `plus K N` or `minus K N`
    Setting(Setting),
}
