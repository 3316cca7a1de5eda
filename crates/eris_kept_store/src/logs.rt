//! The log of a replica up to a number.
ghost use Rattle.std.specs.Prelude.{◌≡◌, ◌++◌, IfOk, OnOk};
ghost use Rattle.eris_log.specs.Entries.{entry_of};
ghost use Rattle.eris_rules.specs.ReplicaAnswers.{is_open, open_at, open_upto, log_upto};

use eris_base::{Dup, NoMemory, Row};
use eris_log::{Entry, Part};
use eris_txn::Packet;
use std::alloc::Global;

/// The packets of the epochs before, then those of the part at the places from 1 to the number whose entries
/// are open.
///
/// # Errors
///
/// [`NoMemory`] where an allocation was refused.
#[tactic(auto, unfolding(eris_rules::specs::ReplicaAnswers::log_upto))]
pub fn log_upto(
    alloc: Global,
    prior: &Row<Packet>,
    part: &Part,
    number: u32,
) -> Result<Row<Packet>, NoMemory>
    ensures { IfOk result (λ log. log ≡ log_upto prior.now part.now number) }
{
    let mut log = prior.copy(alloc)?;
    add_open(alloc, &mut log, part, number)?;
    Ok(log)
}

/// Adds the packets at the places from 1 to the number whose entries are open.
#[tactic(auto, unfolding(eris_rules::specs::ReplicaAnswers::open_upto))]
fn add_open(alloc: Global, log: &mut Row<Packet>, part: &Part, number: u32) -> Result<(), NoMemory>
    ensures { OnOk result (log.new ≡ log.old ++ open_upto part.now number) }
{
    for before in 0..number {
        add_open_at(alloc, log, part, before + 1)?;
    }
    Ok(())
}

#[tactic(auto, unfolding(eris_rules::specs::ReplicaAnswers::open_at))]
fn add_open_at(
    alloc: Global,
    log: &mut Row<Packet>,
    part: &Part,
    number: u32,
) -> Result<(), NoMemory>
    ensures { OnOk result (log.new ≡ log.old ++ open_at part.now number) }
{
    if is_open(part, number) {
        if let Some(packet) = part.held(number) {
            log.push(packet.copy(alloc)?)?;
        }
    }
    Ok(())
}

/// Whether a packet stands at the number that isn't dropped, and of which no place is dropped for a time and
/// not found. It takes no memory.
pub fn is_open(part: &Part, number: u32) -> bool
    ensures { result ≡ is_open (entry_of part.now number) }
{
    matches!(part.entry(number), Entry::Txn)
}
