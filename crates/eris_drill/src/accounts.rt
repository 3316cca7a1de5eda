ghost use Rattle.std.specs.Prelude.{◌≡◌, ◌<◌, ◌∷◌, [], IfOk};
ghost use Rattle.eris_drill.specs.DrillLines.{account, asked, opening_put, payee, payer, teller, transfer};

use crate::turn::Turn;
use eris_base::{ClientId, NoMemory, Row, ShardId};
use eris_event::Event;
use eris_txn::{Guard, How, Key, Name, Op, Plan, Setting};
use std::alloc::Global;

#[tactic(auto, using(crate::proofs::AccountKeys::account_name), unfolding(crate::specs::DrillLines::account))]
fn account(number: u32) -> Key
    requires { number < 16 }
    ensures { result ≡ account number }
{
    let Some(name) = Name::new(&[b'a', b'0' + (number / 4) as u8]) else {
        unreachable!();
    };
    Key {
        shard: ShardId((number % 4) as u8),
        name,
    }
}

/// The client whose turn it is.
#[tactic(auto, unfolding(crate::specs::DrillLines::teller))]
pub(crate) fn teller(turn: u32) -> ClientId
    ensures { result ≡ teller turn }
{
    ClientId((turn % 8) as u8)
}

/// The put by which an account, 0 to 15, gets its first 1000.
#[tactic(auto, unfolding(crate::specs::DrillLines::opening_put))]
pub(crate) fn opening_put(alloc: Global, number: u32) -> Result<Event, NoMemory>
    requires { number < 16 }
    ensures { IfOk result (λ event. event ≡ opening_put number) }
{
    let mut ops = Row::new(alloc);
    ops.push(Op::Put(account(number), 1000))?;
    Ok(Event::Submit {
        client: teller(number),
        ops,
    })
}

#[tactic(auto, unfolding(crate::specs::DrillLines::payer))]
fn payer(turn: Turn) -> Key
    requires { turn.payer < 16 }
    ensures { result ≡ payer turn }
{
    account(turn.payer)
}

#[tactic(auto, unfolding(crate::specs::DrillLines::payee))]
fn payee(turn: Turn) -> Key
    requires payer { turn.payer < 16 }
    requires distance { turn.distance < 15 }
    ensures { result ≡ payee turn }
{
    account((turn.payer + 1 + turn.distance) % 16)
}

/// What the client asks in its turn: a transfer, or to read both accounts.
#[tactic(auto, unfolding(crate::specs::DrillLines::asked))]
pub(crate) fn asked(alloc: Global, client: ClientId, turn: Turn) -> Result<Event, NoMemory>
    requires payer { turn.payer < 16 }
    requires distance { turn.distance < 15 }
    ensures { IfOk result (λ event. event ≡ asked client turn) }
{
    if turn.kind == 0 {
        reading(alloc, client, turn)
    } else {
        let plan = transfer(alloc, turn)?;
        Ok(Event::General { client, plan })
    }
}

fn reading(alloc: Global, client: ClientId, turn: Turn) -> Result<Event, NoMemory>
    requires payer { turn.payer < 16 }
    requires distance { turn.distance < 15 }
    ensures { IfOk result (λ event. event ≡ Event.Submit client (Op.Get (payer turn) ∷ Op.Get (payee turn) ∷ [])) }
{
    let mut ops = Row::new(alloc);
    ops.push(Op::Get(payer(turn)))?;
    ops.push(Op::Get(payee(turn)))?;
    Ok(Event::Submit { client, ops })
}

fn transfer(alloc: Global, turn: Turn) -> Result<Plan, NoMemory>
    requires payer { turn.payer < 16 }
    requires distance { turn.distance < 15 }
    ensures { IfOk result (λ plan. plan ≡ transfer turn) }
{
    let keys = keys(alloc, turn)?;
    let guards = guards(alloc, turn)?;
    let settings = settings(alloc, turn)?;
    match Plan::new(alloc, keys, guards, settings) {
        Ok(plan) => Ok(plan),
        Err(_) => unreachable!(),
    }
}

#[tactic(auto, unfolding(crate::specs::DrillLines::transfer))]
fn keys(alloc: Global, turn: Turn) -> Result<Row<Key>, NoMemory>
    requires payer { turn.payer < 16 }
    requires distance { turn.distance < 15 }
    ensures { IfOk result (λ keys. keys ≡ (transfer turn).keys) }
{
    let mut keys = Row::new(alloc);
    keys.push(payer(turn))?;
    keys.push(payee(turn))?;
    Ok(keys)
}

#[tactic(auto, unfolding(crate::specs::DrillLines::transfer))]
fn guards(alloc: Global, turn: Turn) -> Result<Row<Guard>, NoMemory>
    requires { turn.payer < 16 }
    ensures { IfOk result (λ guards. guards ≡ (transfer turn).guards) }
{
    let mut guards = Row::new(alloc);
    guards.push(Guard {
        key: payer(turn),
        least: turn.amount,
    })?;
    Ok(guards)
}

#[tactic(auto, unfolding(crate::specs::DrillLines::transfer))]
fn settings(alloc: Global, turn: Turn) -> Result<Row<Setting>, NoMemory>
    requires payer { turn.payer < 16 }
    requires distance { turn.distance < 15 }
    ensures { IfOk result (λ settings. settings ≡ (transfer turn).settings) }
{
    let mut settings = Row::new(alloc);
    settings.push(Setting {
        key: payer(turn),
        how: How::Minus(turn.amount),
    })?;
    settings.push(Setting {
        key: payee(turn),
        how: How::Plus(turn.amount),
    })?;
    Ok(settings)
}
