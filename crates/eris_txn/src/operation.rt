ghost use Rattle.std.specs.Prelude.{◌≡◌};
ghost use Rattle.eris_txn.specs.Operations.{left_by, answered};

use crate::op::{Op, OpAnswer};

/// The value that the operation leaves where its key had the value `before`, and what it answers; None
/// means absent. It takes no memory.
pub fn apply_op(before: Option<u64>, op: &Op) -> (Option<u64>, OpAnswer)
    ensures { result ≡ (left_by op.now before, answered op.now before) }
{
    match op {
        Op::Get(_) => match before {
            Some(value) => (before, OpAnswer::Value(value)),
            None => (before, OpAnswer::Absent),
        },
        Op::Put(_, value) => (Some(*value), OpAnswer::Done),
        Op::Del(_) => match before {
            Some(_) => (None, OpAnswer::Yes),
            None => (None, OpAnswer::No),
        },
        Op::Add(_, more) => {
            let sum = before.unwrap_or(0).wrapping_add(*more);
            (Some(sum), OpAnswer::Value(sum))
        }
        Op::Cas(_, expected, value) => match before {
            Some(now) if now == *expected => (Some(*value), OpAnswer::Yes),
            _ => (before, OpAnswer::No),
        },
    }
}
