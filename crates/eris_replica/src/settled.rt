//! The settled log of a replica.
ghost use Rattle.std.specs.Prelude.{◌≡◌, ◌++◌, IfOk, OnOk};
ghost use Rattle.eris_log.specs.Entries.{entry_of};
ghost use Rattle.eris_rules.specs.Good.{is_kept, kept_at, kept_upto, settled_log};

use crate::epochs::Epochs;
use eris_base::{Dup, NoMemory, Row};
use eris_log::{Entry, Part};
use eris_txn::Packet;
use std::alloc::Global;

impl Epochs {
    /// The packets of the closed epochs, then those at the places up to the settled number whose entry isn't
    /// dropped.
    #[tactic(auto, unfolding(eris_rules::specs::Good::settled_log))]
    pub fn settled_log(&self) -> Result<Row<Packet>, NoMemory>
        ensures { IfOk result (λ log. log ≡ settled_log self.now.state) }
    {
        let mut log = self.member.prior().copy(self.alloc)?;
        add_kept(
            self.alloc,
            &mut log,
            self.member.part(),
            self.member.settled(),
        )?;
        Ok(log)
    }
}

/// Adds the packets at the places from 1 to the number whose entries aren't dropped.
#[tactic(auto, unfolding(eris_rules::specs::Good::kept_upto))]
fn add_kept(alloc: Global, log: &mut Row<Packet>, part: &Part, number: u32) -> Result<(), NoMemory>
    ensures { OnOk result (log.new ≡ log.old ++ kept_upto part.now number) }
{
    for before in 0..number {
        add_kept_at(alloc, log, part, before + 1)?;
    }
    Ok(())
}

#[tactic(auto, unfolding(eris_rules::specs::Good::kept_at))]
fn add_kept_at(
    alloc: Global,
    log: &mut Row<Packet>,
    part: &Part,
    number: u32,
) -> Result<(), NoMemory>
    ensures { OnOk result (log.new ≡ log.old ++ kept_at part.now number) }
{
    if is_kept(part, number) {
        if let Some(packet) = part.held(number) {
            log.push(packet.copy(alloc)?)?;
        }
    }
    Ok(())
}

fn is_kept(part: &Part, number: u32) -> bool
    ensures { result ≡ is_kept (entry_of part.now number) }
{
    !matches!(part.entry(number), Entry::Dropped)
}
