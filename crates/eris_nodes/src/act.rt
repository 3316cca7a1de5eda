ghost use Rattle.std.specs.Prelude.{◌≡◌, ◌<◌, false, None, Some, true, IfOk, OnErr, OnOk};
ghost use Rattle.eris_client.specs.ClientRanges.{TxnFits};
ghost use Rattle.eris_in_place.specs.MessageRanges.{SendsFit};
ghost use Rattle.eris_rules.specs.Clients.{retry, submit};
ghost use Rattle.eris_nodes.specs.Acts.{CanAct, acts};

use eris_base::{Dup, NoMemory, Row, TxnId};
use eris_client::{Client, RetryFault};
use eris_msg::Outgoing;
use eris_txn::{HistoryEvent, Key, Txn};
use std::alloc::Global;

/// What a client does of itself.
#[derive(Debug, Drop)]
pub enum Act {
    /// It submits a transaction.
    Submit(Txn),
    /// It asks again for its transaction of this number.
    Retry(u32),
    /// It asks for the abort of another client's transaction, with these keys.
    Abort(TxnId, Row<Key>),
}

/// What a client sends, and what happened at it.
pub type Told = (Row<Outgoing>, Option<HistoryEvent>);

/// The client acts. After [`NoMemory`] it is spent, or as it was.
pub fn perform(alloc: Global, one: &mut Client, act: Act) -> Result<Told, NoMemory>
    requires unspent { one.old.spent ≡ false }
    requires can { CanAct one.old.me one.old.state act }
    ensures ok { IfOk result (λ out. record { state = one.new.state; sends = out.0; event = out.1 } ≡ acts act one.old.me one.old.state) }
    ensures fits { IfOk result (λ out. SendsFit out.0) }
    ensures stays { OnOk result (one.new ≡ record one.old { state = one.new.state }) }
    ensures err { OnErr result (one.new.spent ≡ false → one.new ≡ one.old) }
{
    match act {
        Act::Submit(txn) => submit(alloc, one, txn),
        Act::Retry(number) => ask_again(alloc, one, number),
        Act::Abort(id, keys) => {
            let sends = one.abort(id, keys)?;
            Ok((sends, None))
        }
    }
}

fn submit(alloc: Global, one: &mut Client, txn: Txn) -> Result<Told, NoMemory>
    requires unspent { one.old.spent ≡ false }
    requires room { one.old.state.submitted < 4294967295 }
    requires ranges { TxnFits txn }
    ensures ok { IfOk result (λ out. record { state = one.new.state; sends = out.0; event = out.1 } ≡ submit one.old.me one.old.state txn) }
    ensures fits { IfOk result (λ out. SendsFit out.0) }
    ensures stays { OnOk result (one.new ≡ record one.old { state = one.new.state }) }
    ensures err { OnErr result (one.new.spent ≡ false → one.new ≡ one.old) }
{
    let kept = txn.copy(alloc)?;
    let answered = one.submit(txn)?;
    let (id, sends) = answered;
    Ok((sends, Some(HistoryEvent::Submit(id, kept))))
}

/// Nothing is asked where the client has no such transaction.
#[tactic(auto, unfolding(eris_rules::specs::Clients::retry))]
fn ask_again(alloc: Global, one: &mut Client, number: u32) -> Result<Told, NoMemory>
    requires unspent { one.old.spent ≡ false }
    ensures ok { IfOk result (λ out. record { state = one.new.state; sends = out.0; event = out.1 } ≡ retry one.old.me one.old.state number) }
    ensures fits { IfOk result (λ out. SendsFit out.0) }
    ensures stays { OnOk result (one.new ≡ record one.old { state = one.new.state }) }
    ensures err { OnErr result (one.new.spent ≡ false → one.new ≡ one.old) }
{
    match one.retry(number) {
        Ok(sends) => Ok((sends, None)),
        Err(RetryFault::NoSuchTxn) => Ok((Row::new(alloc), None)),
        Err(RetryFault::NoMemory) => Err(NoMemory),
    }
}

/// Nobody does it.
pub fn leave(_act: Act) {}
