use crate::parts::{filled, is_copied, is_made_of_lists, merge_parts, new_part};
use crate::steps::{place, take_all};
use anyhow::bail;
use eris_base::Same;
use eris_log::{Entry, Part};
use std::alloc::{AllocError, Global};

/// The greatest number of which it is told whether the part covers to it.
const COVERED_MOST: u32 = 9;

/// Does what the line says. What is printed of it.
pub(crate) fn tell(alloc: Global, part: &mut Part, line: &str) -> anyhow::Result<String> {
    match line.split_once(' ') {
        Some(("#", _)) => Ok(String::from_str(alloc, line)?),
        Some(("merge", steps)) => merge(alloc, part, steps),
        Some(("same", steps)) => same(alloc, part, steps),
        Some(("holder", text)) => holder(alloc, part, text),
        Some(("client", text)) => client(alloc, part, text),
        Some(_) => take(alloc, part, line),
        None => tell_word(alloc, part, line),
    }
}

fn tell_word(alloc: Global, part: &mut Part, word: &str) -> anyhow::Result<String> {
    match word {
        "new" => {
            *part = new_part(alloc);
            Ok(state(alloc, part)?)
        }
        "lists" => lists(alloc, part),
        "copy" => Ok(format!(in alloc; "the same: {}", is_copied(alloc, part)?)?),
        _ => bail!("`{word}` is no line"),
    }
}

fn take(alloc: Global, part: &mut Part, steps: &str) -> anyhow::Result<String> {
    take_all(alloc, part, steps)?;
    Ok(state(alloc, part)?)
}

fn merge(alloc: Global, part: &mut Part, steps: &str) -> anyhow::Result<String> {
    let other = filled(alloc, steps)?;
    merge_parts(part, &other)?;
    Ok(state(alloc, part)?)
}

fn same(alloc: Global, part: &Part, steps: &str) -> anyhow::Result<String> {
    let other = filled(alloc, steps)?;
    let same = part.same(&other);
    Ok(format!(in alloc; "the same: {same}")?)
}

fn holder(alloc: Global, part: &Part, text: &str) -> anyhow::Result<String> {
    let number = part.holder_of(place(text)?);
    Ok(format!(in alloc; "{number:?}")?)
}

fn client(alloc: Global, part: &Part, text: &str) -> anyhow::Result<String> {
    let number = text.parse::<u32>()?;
    let client = part.held(number).map(|packet| packet.id.client.0);
    Ok(format!(in alloc; "{client:?}")?)
}

fn lists(alloc: Global, part: &Part) -> anyhow::Result<String> {
    let held = part.held_list().len();
    let temp = part.temp().len();
    let found = part.fnd().len();
    let dropped = part.perm().len();
    let same = is_made_of_lists(alloc, part)?;
    let lists = format!(in alloc; "held {held}, temp {temp}, found {found}, dropped {dropped}")?;
    Ok(format!(in alloc; "{lists}; made of them the same: {same}")?)
}

/// The entries, the length, and how far the part covers.
fn state(alloc: Global, part: &Part) -> Result<String, AllocError> {
    let entries = entries(alloc, part)?;
    let length = part.length();
    let covered = covered(part);
    format!(in alloc; "{entries} length {length}, covers {covered}")
}

/// The letters of the entries at the numbers 1 to 5.
fn entries(alloc: Global, part: &Part) -> Result<String, AllocError> {
    let mut letters = String::new(alloc);
    for number in 1..=5 {
        letters.push(letter(part.entry(number)))?;
    }
    Ok(letters)
}

fn letter(entry: Entry) -> char {
    match entry {
        Entry::Dropped => 'd',
        Entry::Txn => 't',
        Entry::Gap => '-',
    }
}

/// The greatest of the numbers to which the part covers.
fn covered(part: &Part) -> u32 {
    let mut covered = 0;
    for number in 0..=COVERED_MOST {
        if part.covers(number) {
            covered = number;
        }
    }
    covered
}
