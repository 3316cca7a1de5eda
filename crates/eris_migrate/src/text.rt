ghost use Rattle.std.specs.Prelude.{◌≡◌, ◌∷◌, ◌++◌, ◌≤◌, length, None, IfErr, IfOk, OnOk};
ghost use Rattle.std.specs.List.{flat_map};
ghost use Rattle.eris_words.specs.Cuts.{lines};
ghost use Rattle.eris_migrate.specs.Migrated.{last_lf, migrated_line};
ghost use Rattle.eris_migrate.specs.Migrations.{Migrates, Refuses};
ghost use Rattle.eris_migrate.specs.Unread.{unread, unread_from};

use crate::fault::MigrateFault;
use crate::reading::{check_header, check_line};
use crate::spelling::{put_header, put_line};
use eris_base::{NoMemory, Row};
use eris_words::first_line;
use std::alloc::Global;

// Adds the lines behind a header, of which the first is line 2, an LF before each.
fn put_lines(alloc: Global, out: &mut Row<u8>, text: &[u8]) -> Result<(), MigrateFault>
    requires { length text.now ≤ 4294967293 }
    ensures read { OnOk result (unread_from 2 (lines text.now) ≡ None) }
    ensures text { OnOk result (out.new ≡ out.old ++ flat_map (λ line. 10 ∷ migrated_line line) (lines text.now)) }
    ensures bad { IfErr result (Refuses (unread_from 2 (lines text.now))) }
{
    let mut rest = text;
    let mut number = 2;
    while !rest.is_empty() {
        let (line, more) = first_line(rest);
        check_line(alloc, number, line)?;
        out.push(b'\n')?;
        put_line(out, line)?;
        rest = more;
        number += 1;
    }
    Ok(())
}

// Adds the LF that the text ends in.
fn put_last_lf(out: &mut Row<u8>, text: &[u8]) -> Result<(), NoMemory>
    ensures { OnOk result (out.new ≡ out.old ++ last_lf text.now) }
{
    if text.ends_with(b"\n") {
        out.push(b'\n')?;
    }
    Ok(())
}

/// A script of version 1 in the spelling of version 2: one CR at the end of each line is taken off, the version
/// in the header becomes 2, and a `.` stands where version 2 has one word for two; every other byte stays. The
/// script isn't run, and no event is kept. docs/SCRIPT.md has both versions side by side. It needs bytes whose
/// lines can be counted in 32 bits.
///
/// # Errors
///
/// `Bad` exactly where the bytes are no script of version 1: the first line that isn't read as one of it, and
/// why; a header of version 2 is refused with `Header`. `NoMemory` where an allocation was refused.
#[tactic(auto, unfolding(crate::specs::Unread::unread))]
pub fn migrate(alloc: Global, bytes: &[u8]) -> Result<Row<u8>, MigrateFault>
    requires { length bytes.now ≤ 4294967294 }
    ensures ok { IfOk result (Migrates bytes.now) }
    ensures bad { IfErr result (Refuses (unread bytes.now)) }
{
    let (first, rest) = first_line(bytes);
    check_header(first)?;
    let mut text = Row::from_vec(Vec::with_capacity(alloc, bytes.len())?);
    put_header(&mut text, first)?;
    put_lines(alloc, &mut text, rest)?;
    put_last_lf(&mut text, bytes)?;
    Ok(text)
}
