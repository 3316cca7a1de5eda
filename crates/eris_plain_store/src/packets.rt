ghost use Rattle.std.specs.Prelude.{◌≡◌, [], ◌∷◌, ◌++◌, IfOk, OnOk};
ghost use Rattle.std.specs.List.{list_any};
ghost use Rattle.eris_locks.specs.LockTable.{aborted_late, done};
ghost use Rattle.eris_locks.specs.States.{holds, is_prelim, is_prelim_of, no_longer_holding, no_longer_waiting, waits};

use eris_base::{NoMemory, Place, Row, TxnId, is_same_id};
use eris_locks::{Done, Held, ShardPacket, phase_of};
use eris_txn::{Answer, Body};
use std::alloc::Global;

/// Whether it is the body of a preliminary. It takes no memory.
pub fn is_prelim(body: &Body) -> bool
    ensures { result ≡ is_prelim body.now }
{
    match body {
        Body::Prelim(_) => true,
        Body::Independent(_) | Body::Commit(_, _) | Body::Abort(_) => false,
    }
}

/// Whether a preliminary of that id holds. It takes no memory.
pub fn holds(id: TxnId, holding: &[Held]) -> bool
    ensures { result ≡ holds id holding.now }
{
    holding.iter().any(|held| is_same_id(id, held.id))
}

/// The same, but for preliminaries of that id. It takes no memory.
pub fn no_longer_holding(id: TxnId, holding: Row<Held>) -> Row<Held>
    ensures { result ≡ no_longer_holding id holding }
{
    let mut items = holding.into_vec();
    items.retain(|held| !is_same_id(id, held.id));
    Row::from_vec(items)
}

/// Whether a packet of that id waits. It takes no memory.
pub fn waits(id: TxnId, waiting: &[ShardPacket]) -> bool
    ensures { result ≡ waits id waiting.now }
{
    waiting.iter().any(|packet| is_same_id(id, packet.id))
}

fn is_prelim_of(id: TxnId, packet: &ShardPacket) -> bool
    ensures { result ≡ is_prelim_of id packet.now }
{
    is_same_id(id, packet.id) && is_prelim(&packet.body)
}

/// Whether a preliminary of that id waits. It takes no memory.
pub fn waits_prelim(id: TxnId, waiting: &[ShardPacket]) -> bool
    ensures { result ≡ list_any (is_prelim_of id) waiting.now }
{
    waiting.iter().any(|packet| is_prelim_of(id, packet))
}

/// The same, but for preliminaries of that id. It takes no memory.
pub fn no_longer_waiting(id: TxnId, waiting: Row<ShardPacket>) -> Row<ShardPacket>
    ensures { result ≡ no_longer_waiting id waiting }
{
    let mut items = waiting.into_vec();
    items.retain(|packet| !is_prelim_of(id, packet));
    Row::from_vec(items)
}

/// The answer to a packet, in the step of the packet at that place, and whether that packet had waited. It
/// takes no memory.
pub fn done_for(at: Place, packet: &ShardPacket, answer: Answer, late: bool) -> Done
    ensures { result ≡ done at packet.now answer late }
{
    Done {
        id: packet.id,
        phase: phase_of(&packet.body),
        asker: packet.asker,
        answer,
        at,
        late,
    }
}

/// The row of one answer.
///
/// # Errors
///
/// [`NoMemory`] where an allocation was refused.
pub fn only(alloc: Global, given: Done) -> Result<Row<Done>, NoMemory>
    ensures { IfOk result (λ dones. dones ≡ given ∷ []) }
{
    let mut dones = Row::new(alloc);
    dones.push(given)?;
    Ok(dones)
}

/// Adds the late answer to the waiting preliminary of that id, which is aborted.
///
/// # Errors
///
/// [`NoMemory`] where an allocation was refused.
pub fn add_aborted_late(
    dones: &mut Row<Done>,
    at: Place,
    id: TxnId,
    waiting: &[ShardPacket],
) -> Result<(), NoMemory>
    ensures { OnOk result (dones.new ≡ dones.old ++ aborted_late at id waiting.now) }
{
    for packet in waiting {
        if is_prelim_of(id, packet) {
            return dones.push(done_for(at, packet, Answer::Aborted, true));
        }
    }
    Ok(())
}
