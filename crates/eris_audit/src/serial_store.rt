ghost use Rattle.std.specs.Prelude.{◌≡◌, [], false, is_err, map, IfOk, OnOk};
ghost use Rattle.std.specs.List.Sorted.{IsStrictlySortedBy};
ghost use Rattle.eris_txn.specs.Keys.{key_cmp};
ghost use Rattle.eris_txn.specs.KeyValues.{total_of, values_of};
ghost use Rattle.eris_txn.specs.Plans.{guard_holds, guards_hold};
ghost use Rattle.eris_txn.specs.declared.txn.Txn.TheVariants.{General};
ghost use Rattle.eris_audit.specs.declared.outcome.Outcome.TheVariants.{Committed};
ghost use Rattle.eris_audit.specs.SerialRun.{step_result, left_by_step};

use crate::outcome::Outcome;
use eris_base::{NoMemory, Row};
use eris_txn::{Answer, Guard, Key, KeyValues, Plan, Txn};
use std::alloc::Global;
use std::marker::Model;

/// One plain map of values, over which transactions run one after another.
#[derive(Drop)]
pub struct SerialStore {
    alloc: Global,
    values: KeyValues,
    spent: bool,
}

impl Model for SerialStore {
    ghost use Rattle.eris_audit.specs.Stores.{StoreValue};

    ghost Value = { StoreValue };

    ghost view = { λ store. record { entries = store.values; spent = store.spent } };
}

impl SerialStore {
    /// A store in which no key has a value. It takes no memory.
    pub fn new(alloc: Global) -> SerialStore
        ensures { result ≡ record { entries = []; spent = false } }
    {
        SerialStore {
            alloc,
            values: KeyValues::new(alloc),
            spent: false,
        }
    }

    /// Runs one transaction, and needs a store that isn't spent. An independent transaction is executed
    /// and answers `Ops`. A general one answers its keys' `Values` and, where it is `Committed`, makes its
    /// settings in order. None comes exactly where it is `Committed` and a guard fails; the store is then
    /// as before.
    ///
    /// # Errors
    ///
    /// [`NoMemory`] where an allocation was refused; the store is then spent.
    pub fn run(&mut self, txn: &Txn, outcome: Outcome) -> Result<Option<Answer>, NoMemory>
        requires { self.old.spent ≡ false }
        ensures answer { IfOk result (λ answer. answer ≡ step_result txn.now outcome (values_of self.old.entries)) }
        ensures left { OnOk result (values_of self.new.entries ≡ left_by_step txn.now outcome (values_of self.old.entries)) }
        ensures spent { self.new.spent ≡ is_err result }
    {
        let done = execute(self.alloc, &mut self.values, txn, outcome);
        self.spent = done.is_err();
        done
    }

    /// The value of a key, None exactly where it has none; it needs a store that isn't spent. It takes no
    /// memory.
    pub fn value_of(&self, key: &Key) -> Option<u64>
        requires { self.now.spent ≡ false }
        ensures { result ≡ values_of self.now.entries key.now }
    {
        self.values.value_of(key)
    }

    /// The sum of all values, modulo 2^64; it needs a store that isn't spent. Each key stands once. It
    /// takes no memory.
    pub fn total(&self) -> u64
        requires { self.now.spent ≡ false }
        ensures sum { result ≡ total_of self.now.entries }
        ensures ordered { IsStrictlySortedBy key_cmp (map (λ entry. entry.0) self.now.entries) }
    {
        self.values.total()
    }

    /// Whether a call was refused memory. The store's other calls then may not be made any more.
    pub fn is_spent(&self) -> bool
        ensures { result ≡ self.now.spent }
    {
        self.spent
    }
}

fn execute(
    alloc: Global,
    values: &mut KeyValues,
    txn: &Txn,
    outcome: Outcome,
) -> Result<Option<Answer>, NoMemory>
    ensures answer { IfOk result (λ answer. answer ≡ step_result txn.now outcome (values_of values.old)) }
    ensures left { OnOk result (values_of values.new ≡ left_by_step txn.now outcome (values_of values.old)) }
{
    match txn {
        Txn::Whole(ops) => {
            let answers = values.apply_all(alloc, ops.as_slice())?;
            Ok(Some(Answer::Ops(answers)))
        }
        Txn::General(plan) => execute_plan(alloc, values, plan, outcome),
    }
}

fn execute_plan(
    alloc: Global,
    values: &mut KeyValues,
    plan: &Plan,
    outcome: Outcome,
) -> Result<Option<Answer>, NoMemory>
    ensures answer { IfOk result (λ answer. answer ≡ step_result (General plan.now) outcome (values_of values.old)) }
    ensures left { OnOk result (values_of values.new ≡ left_by_step (General plan.now) outcome (values_of values.old)) }
{
    match outcome {
        Outcome::Committed => commit(alloc, values, plan),
        Outcome::Done | Outcome::Aborted | Outcome::Pending => {
            let read = read_all(alloc, values, plan.keys())?;
            Ok(Some(Answer::Values(read)))
        }
    }
}

fn commit(alloc: Global, values: &mut KeyValues, plan: &Plan) -> Result<Option<Answer>, NoMemory>
    ensures answer { IfOk result (λ answer. answer ≡ step_result (General plan.now) Committed (values_of values.old)) }
    ensures left { OnOk result (values_of values.new ≡ left_by_step (General plan.now) Committed (values_of values.old)) }
{
    if !guards_hold(values, plan.guards()) {
        return Ok(None);
    }
    let read = read_all(alloc, values, plan.keys())?;
    values.settle(plan.settings())?;
    Ok(Some(Answer::Values(read)))
}

fn guards_hold(values: &KeyValues, guards: &[Guard]) -> bool
    ensures { result ≡ guards_hold guards.now (values_of values.now) }
{
    guards.iter().all(|guard| holds(values, guard))
}

fn holds(values: &KeyValues, guard: &Guard) -> bool
    ensures { result ≡ guard_holds guard.now (values_of values.now) }
{
    values.value_of(&guard.key).unwrap_or(0) >= guard.least
}

fn read_all(alloc: Global, values: &KeyValues, keys: &[Key]) -> Result<Row<Option<u64>>, NoMemory>
    ensures { IfOk result (λ read. read ≡ map (values_of values.now) keys.now) }
{
    let mut read = Row::new(alloc);
    for key in keys {
        read.push(values.value_of(key))?;
    }
    Ok(read)
}
