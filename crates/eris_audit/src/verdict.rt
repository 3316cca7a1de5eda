/// What the audit says of a history and an order.
#[derive(Clone, Copy, Debug, PartialEq, Eq)]
pub enum Verdict {
    /// The five rules hold.
    Yes,
    /// The least rule that is broken, 1 to 5, and the first line that breaks it, from 1: a line of the
    /// order for rule 1 and for a guard that fails under rule 3, an event of the history else.
    No { rule: u8, line: u32 },
}
