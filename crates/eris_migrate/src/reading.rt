ghost use Rattle.std.specs.Prelude.{◌≡◌, [], ◌∷◌, None, IfErr, OnOk};
ghost use Rattle.eris_grammar.specs.Headers.{header_of};
ghost use Rattle.eris_migrate.specs.Migrations.{Refuses};
ghost use Rattle.eris_migrate.specs.Unread.{header_fault, unless_headless, unread_from};

use crate::fault::MigrateFault;
use eris_grammar::{parse_header, parse_line};
use eris_words::{LineFault, Reason};
use std::alloc::Global;

/// Whether the first line is a header of version 1. It takes no memory.
pub(crate) fn check_header(line: &[u8]) -> Result<(), MigrateFault>
    ensures ok { OnOk result (header_fault (header_of line.now) ≡ None) }
    ensures bad { IfErr result (Refuses (unless_headless (header_fault (header_of line.now)) [])) }
{
    match parse_header(line) {
        Ok(header) if header.version == 1 => Ok(()),
        Ok(_) => Err(MigrateFault::Bad {
            line: 1,
            reason: Reason::Header,
        }),
        Err(reason) => Err(MigrateFault::Bad { line: 1, reason }),
    }
}

/// Whether version 1's grammar reads the line, which has this number.
#[tactic(auto, unfolding(crate::specs::Unread::unread_from))]
pub(crate) fn check_line(alloc: Global, number: u32, line: &[u8]) -> Result<(), MigrateFault>
    ensures ok { OnOk result (unread_from number (line.now ∷ []) ≡ None) }
    ensures bad { IfErr result (Refuses (unread_from number (line.now ∷ []))) }
{
    match parse_line(alloc, 1, line) {
        Ok(_) => Ok(()),
        Err(LineFault::Bad(reason)) => Err(MigrateFault::Bad {
            line: number,
            reason,
        }),
        Err(LineFault::NoMemory) => Err(MigrateFault::NoMemory),
    }
}
