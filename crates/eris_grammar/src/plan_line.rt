ghost use Rattle.std.specs.Prelude.{◌≡◌, [], ◌∷◌, ◌++◌, OnOk};
ghost use Rattle.eris_words.specs.Forms.{Gives, next_item};
ghost use Rattle.eris_grammar.specs.PlanForms as form;

use crate::clause::Clause;
use crate::fields::{key_of, value_of};
use crate::fixed_words::{ClauseWord, clause_word_of};
use crate::op_line::most;
use eris_base::{NoMemory, Row};
use eris_txn::{Guard, How, Key, Plan, PlanFault, Setting};
use eris_words::{LineFault, LineWords, Reason};
use std::alloc::Global;

#[tactic(auto, unfolding(crate::specs::PlanForms::clause_behind))]
fn clause_behind(version: u8, word: ClauseWord, words: &mut LineWords) -> Result<Clause, LineFault>
    ensures { Gives (λ clause. (clause, words.new)) result (form.clause_behind version word words.old) }
{
    let key = key_of(version, words)?;
    let number = value_of(words)?;
    Ok(match word {
        ClauseWord::Guard => Clause::Guard(Guard { key, least: number }),
        ClauseWord::Set => Clause::Setting(Setting {
            key,
            how: How::Put(number),
        }),
        ClauseWord::Plus => Clause::Setting(Setting {
            key,
            how: How::Plus(number),
        }),
        ClauseWord::Minus => Clause::Setting(Setting {
            key,
            how: How::Minus(number),
        }),
    })
}

#[tactic(auto, unfolding(crate::specs::PlanForms::clause_form))]
fn clause_of(version: u8, words: &mut LineWords) -> Result<Clause, LineFault>
    ensures { Gives (λ clause. (clause, words.new)) result ((form.clause_form version).read words.old) }
{
    let word = clause_word_of(words)?;
    clause_behind(version, word, words)
}

// Keys, up to a `;` or the end of the line.
#[tactic(auto, unfolding(crate::specs::PlanForms::all_keys))]
fn all_keys(alloc: Global, version: u8, words: &mut LineWords) -> Result<Row<Key>, LineFault>
    ensures { Gives (λ keys. (keys, words.new)) result (form.all_keys version words.old) }
{
    let mut keys = Row::new(alloc);
    keys.push(key_of(version, words)?)?;
    while !words.is_at_end() && !words.is_at(b";") {
        keys.push(key_of(version, words)?)?;
    }
    Ok(keys)
}

/// Adds the clause to the guards or to the settings.
fn keep(
    guards: &mut Row<Guard>,
    settings: &mut Row<Setting>,
    clause: Clause,
) -> Result<(), NoMemory>
    ensures guards { OnOk result (guards.new ≡ guards.old ++ form.guards_in (clause ∷ [])) }
    ensures settings { OnOk result (settings.new ≡ settings.old ++ form.settings_in (clause ∷ [])) }
{
    match clause {
        Clause::Guard(guard) => guards.push(guard),
        Clause::Setting(setting) => settings.push(setting),
    }
}

// A clause behind a `;`.
fn next_clause(version: u8, words: &mut LineWords) -> Result<Clause, LineFault>
    ensures { Gives (λ clause. (clause, words.new)) result (next_item (form.clause_form version) words.old) }
{
    words.expect(b";")?;
    clause_of(version, words)
}

// Clauses, each behind a `;`, to the end of the line.
fn all_clauses(
    alloc: Global,
    version: u8,
    words: &mut LineWords,
) -> Result<(Row<Guard>, Row<Setting>), LineFault>
    ensures { Gives (λ rows. (rows.0, rows.1)) result (form.all_clauses version words.old) }
{
    let mut guards = Row::new(alloc);
    let mut settings = Row::new(alloc);
    while !words.is_at_end() {
        let clause = next_clause(version, words)?;
        keep(&mut guards, &mut settings, clause)?;
    }
    Ok((guards, settings))
}

fn fault_reason(fault: PlanFault) -> Reason
    ensures { result ≡ form.fault_reason fault }
{
    match fault {
        PlanFault::TooMany => Reason::TooMany,
        PlanFault::Empty => Reason::End,
        PlanFault::RepeatedKey => Reason::RepeatedKey,
        PlanFault::UnlockedKey => Reason::UnlockedKey,
    }
}

fn planned(
    alloc: Global,
    version: u8,
    keys: Row<Key>,
    guards: Row<Guard>,
    settings: Row<Setting>,
) -> Result<Plan, LineFault>
    ensures { Gives (λ plan. plan) result (form.planned version keys guards settings) }
{
    if keys.len() > most(version) || guards.len() > most(version) {
        return Err(LineFault::Bad(Reason::TooMany));
    }
    match Plan::new(alloc, keys, guards, settings) {
        Ok(plan) => Ok(plan),
        Err(fault) => Err(LineFault::Bad(fault_reason(fault))),
    }
}

/// A plan, to the end of the line, in the ranges of version 1 or 2; its clauses may stand in any order.
///
/// # Errors
///
/// `Bad` exactly where the words are no such plan: the first word that doesn't fit gives the reason, or
/// the rule of plans that is broken. `NoMemory` where an allocation was refused.
#[tactic(auto, unfolding(crate::specs::PlanForms::plan_of))]
pub fn plan_of(alloc: Global, version: u8, words: &mut LineWords) -> Result<Plan, LineFault>
    ensures { Gives (λ plan. plan) result (form.plan_of version words.old) }
{
    words.expect(b"lock")?;
    let keys = all_keys(alloc, version, words)?;
    let (guards, settings) = all_clauses(alloc, version, words)?;
    planned(alloc, version, keys, guards, settings)
}
