ghost use Rattle.std.specs.Prelude.{◌≡◌, ◌++◌, ◌-◌, ◌≤◌, codes, drop, length, not, IsTrue, OnOk};
ghost use Rattle.std.specs.List.{suffix_len};
ghost use Rattle.eris_migrate.specs.Migrated.{ends_in_replica, ends_in_txn, first_dotted, joins_last, joins_third, last_dotted, migrated_header, migrated_line};
ghost use Rattle.eris_words.specs.Cuts.{is_space};

use eris_base::{NoMemory, Row};
use eris_words::{cut, first_word};

// Whether lines with this first word end in a transaction.
fn ends_in_txn(word: &[u8]) -> bool
    ensures { result ≡ ends_in_txn word.now }
{
    word == b"retry".as_slice() || word == b"abort".as_slice()
}

// Whether lines with this first word end in a replica.
fn ends_in_replica(word: &[u8]) -> bool
    ensures { result ≡ ends_in_replica word.now }
{
    word == b"probe".as_slice()
        || word == b"suspect".as_slice()
        || word == b"sync".as_slice()
        || word == b"crash".as_slice()
}

// Whether the last two words of the line are one word in version 2.
fn joins_last(line: &[u8]) -> bool
    ensures { result ≡ joins_last line.now }
{
    let word = first_word(line);
    ends_in_txn(word) || ends_in_replica(word)
}

// Whether the third word of the line and its fourth are one word in version 2.
fn joins_third(line: &[u8]) -> bool
    ensures exact { result ≡ joins_third line.now }
    ensures long { IsTrue result → 10 ≤ length line.now }
{
    line.starts_with(b"noise rep ")
}

// Where the last word of the line begins.
fn last_word_at(line: &[u8]) -> usize
    ensures exact { result ≡ length line.now - suffix_len (λ byte. not (is_space byte)) line.now }
    ensures within { result ≤ length line.now }
{
    let mut start = line.len();
    while start > 0 && line[start - 1] != b' ' {
        start -= 1;
    }
    start
}

fn put_last_dotted(out: &mut Row<u8>, line: &[u8]) -> Result<(), NoMemory>
    ensures { OnOk result (out.new ≡ out.old ++ last_dotted line.now) }
{
    let start = last_word_at(line);
    out.append(&line[..start.saturating_sub(1)])?;
    out.push(b'.')?;
    out.append(&line[start..])
}

fn put_first_dotted(out: &mut Row<u8>, line: &[u8]) -> Result<(), NoMemory>
    ensures { OnOk result (out.new ≡ out.old ++ first_dotted line.now) }
{
    let (front, rest) = cut(line, b' ');
    out.append(front)?;
    out.push(b'.')?;
    out.append(rest)
}

fn put_third_dotted(out: &mut Row<u8>, line: &[u8]) -> Result<(), NoMemory>
    requires { 10 ≤ length line.now }
    ensures { OnOk result (out.new ≡ out.old ++ (codes "noise rep " ++ first_dotted (drop 10 line.now))) }
{
    out.append(b"noise rep ")?;
    put_first_dotted(out, &line[10..])
}

/// Adds a line behind the header as version 2 spells it.
#[tactic(auto, unfolding(crate::specs::Migrated::migrated_line))]
pub(crate) fn put_line(out: &mut Row<u8>, line: &[u8]) -> Result<(), NoMemory>
    ensures { OnOk result (out.new ≡ out.old ++ migrated_line line.now) }
{
    if joins_last(line) {
        put_last_dotted(out, line)
    } else if joins_third(line) {
        put_third_dotted(out, line)
    } else {
        out.append(line)
    }
}

/// Adds a header as one of version 2.
#[tactic(auto, unfolding(crate::specs::Migrated::migrated_header))]
pub(crate) fn put_header(out: &mut Row<u8>, line: &[u8]) -> Result<(), NoMemory>
    ensures { OnOk result (out.new ≡ out.old ++ migrated_header line.now) }
{
    let (name, rest) = cut(line, b' ');
    let (_version, sizes) = cut(rest, b' ');
    out.append(name)?;
    out.append(b" 2 ")?;
    out.append(sizes)
}
