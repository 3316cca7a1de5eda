ghost use Rattle.std.specs.Prelude.{◌≡◌, ◌≤◌, Some, None, IfOk, IfErr, IfSome, IsTrue, MatchOption, false, length, map, nat_le, unwrap_or};
ghost use Rattle.std.specs.List.{list_all};
ghost use Rattle.eris_txn.specs.Plans.{value_in, guards_hold, set_by, settled, writes_from, written, writes_of, locks_in, locks_of, mode_of};
ghost use Rattle.eris_txn.specs.Keys.{Values};
ghost use Rattle.eris_txn.specs.Sizes.{is_few};
ghost use Rattle.eris_txn.specs.PlanFaults.{is_among, repeats, sets, sets_twice, all_locked, plan_fault};

use crate::key::Key;
use crate::lock::{Lock, Mode};
use eris_base::{Dup, NoMemory, Row, Same};
use std::alloc::Global;
use std::marker::Model;
use thiserror::Error;

/// A condition on a locked key: its value, where absent counts as 0, is at least this.
#[derive(Clone, Copy, Debug, PartialEq, Eq)]
pub struct Guard {
    pub key: Key,
    pub least: u64,
}

/// How a setting makes its value, modulo 2^64, where an absent value counts as 0.
#[derive(Clone, Copy, Debug, PartialEq, Eq)]
pub enum How {
    /// The number itself.
    Put(u64),
    /// The value before plus the number.
    Plus(u64),
    /// The value before minus the number.
    Minus(u64),
}

/// What a committed plan does to one locked key.
#[derive(Clone, Copy, Debug, PartialEq, Eq)]
pub struct Setting {
    pub key: Key,
    pub how: How,
}

/// A value that a commit writes.
#[derive(Clone, Copy, Debug, PartialEq, Eq)]
pub struct Write {
    pub key: Key,
    pub value: u64,
}

/// Why three lists are no plan.
#[derive(Clone, Copy, Debug, PartialEq, Eq, Error)]
pub enum PlanFault {
    #[error("there are more than 32 keys or more than 32 guards")]
    TooMany,
    #[error("there is no key")]
    Empty,
    #[error("a key is locked twice or set twice")]
    RepeatedKey,
    #[error("a guard or a setting names a key that is not locked")]
    UnlockedKey,
}

/// A general transaction: the keys that it locks and reads, the guards that decide whether it commits,
/// and the settings that it then makes. It keeps these facts: 1 to 32 keys, each once; at most 32
/// guards; each key set at most once; guards and settings name locked keys alone.
#[derive(Debug, Drop)]
pub struct Plan {
    alloc: Global,
    keys: Row<Key>,
    guards: Row<Guard>,
    settings: Row<Setting>,
}

impl Model for Plan {
    ghost use Rattle.eris_txn.specs.PlanValues.{PlanValue};
    ghost use Rattle.eris_txn.specs.PlanFacts.{IsPlan};

    ghost Value = { PlanValue };

    ghost view = { λ p. record { keys = p.keys; guards = p.guards; settings = p.settings } };

    ghost invariant = { λ p. IsPlan (record { keys = p.keys; guards = p.guards; settings = p.settings }) };
}

impl Plan {
    ghost use Rattle.eris_txn.specs.PlanFacts.{IsPlan};

    /// The plan of these lists; else the first reason why there is none. It takes no memory.
    ///
    /// # Errors
    ///
    /// `TooMany` exactly where there are more than 32 keys or more than 32 guards, else `Empty` exactly
    /// where there is no key, else `RepeatedKey` exactly where a key is locked twice or set twice, else
    /// `UnlockedKey` exactly where a guard or a setting names a key that isn't locked.
    pub fn new(
        alloc: Global,
        keys: Row<Key>,
        guards: Row<Guard>,
        settings: Row<Setting>,
    ) -> Result<Plan, PlanFault>
        ensures ok { IfOk result (λ plan. (plan ≡ record { keys = keys; guards = guards; settings = settings })
            × (plan_fault keys guards settings ≡ None)) }
        ensures err { IfErr result (λ fault. plan_fault keys guards settings ≡ Some fault) }
    {
        if keys.len() > 32 || guards.len() > 32 {
            return Err(PlanFault::TooMany);
        }
        if keys.is_empty() {
            return Err(PlanFault::Empty);
        }
        if repeats(keys.as_slice()) || sets_twice(settings.as_slice()) {
            return Err(PlanFault::RepeatedKey);
        }
        if !all_locked(keys.as_slice(), guards.as_slice(), settings.as_slice()) {
            return Err(PlanFault::UnlockedKey);
        }
        Ok(Plan {
            alloc,
            keys,
            guards,
            settings,
        })
    }

    /// The keys that the plan locks and reads: 1 to 32, each once. It takes no memory.
    pub fn keys(&self) -> &[Key]
        ensures exact { result.now ≡ self.now.keys }
        ensures fits { IsPlan self.now }
    {
        self.keys.as_slice()
    }

    /// The guards, at most 32, on locked keys. It takes no memory.
    pub fn guards(&self) -> &[Guard]
        ensures exact { result.now ≡ self.now.guards }
        ensures fits { IsPlan self.now }
    {
        self.guards.as_slice()
    }

    /// The settings, each of another locked key. It takes no memory.
    pub fn settings(&self) -> &[Setting]
        ensures exact { result.now ≡ self.now.settings }
        ensures fits { IsPlan self.now }
    {
        self.settings.as_slice()
    }

    /// The plan's keys in order, `Exclusive` exactly where a setting names the key.
    #[tactic(auto, using(crate::proofs::PlanSizes::plan_sizes))]
    pub fn locks(&self) -> Result<Row<Lock>, NoMemory>
        ensures exact { IfOk result (λ locks. locks ≡ locks_of self.now) }
        ensures few { IfOk result (λ locks. IsTrue (is_few locks)) }
    {
        let locks = lock_keys(self.alloc, self.keys.as_slice(), self.settings.as_slice())?;
        Ok(locks)
    }

    /// What the plan writes where its keys have these values, which stand in the order of the keys; None
    /// means absent, and so does a value that is missing. It is None exactly where a guard's key has a
    /// value below the guard's `least`, where absent counts as 0. Else there is one write for each
    /// setting, in order, and the writes leave what the settings leave, made one after the other.
    pub fn writes(&self, values: &[Option<u64>]) -> Result<Option<Row<Write>>, NoMemory>
        ensures exact { IfOk result (λ found. found ≡ writes_of self.now (value_in self.now.keys values.now)) }
        ensures few { IfOk result (λ found. IfSome found (λ writes. length writes ≤ 32)) }
        ensures settles { IfOk result (λ found. (have : Values) → values.now ≡ map have self.now.keys
            → MatchOption found (guards_hold self.now.guards have ≡ false)
            (λ writes. written writes have ≡ settled self.now.settings have)) }
    {
        let found = self.found_writes(values)?;
        Ok(found)
    }

    fn found_writes(&self, values: &[Option<u64>]) -> Result<Option<Row<Write>>, NoMemory>
        ensures exact { IfOk result (λ found. found ≡ writes_of self.now (value_in self.now.keys values.now)) }
        ensures fits { IsPlan self.now }
    {
        let keys = self.keys.as_slice();
        if !guards_hold(self.guards.as_slice(), keys, values) {
            return Ok(None);
        }
        let writes = writes_from(self.alloc, self.settings.as_slice(), keys, values)?;
        Ok(Some(writes))
    }
}

impl Dup for Guard {
    fn copy(&self, _: Global) -> Result<Guard, NoMemory> {
        Ok(*self)
    }
}

impl Same for Guard {
    fn same(&self, other: &Guard) -> bool {
        self == other
    }
}

impl Dup for How {
    fn copy(&self, _: Global) -> Result<How, NoMemory> {
        Ok(*self)
    }
}

impl Same for How {
    fn same(&self, other: &How) -> bool {
        self == other
    }
}

impl Dup for Setting {
    fn copy(&self, _: Global) -> Result<Setting, NoMemory> {
        Ok(*self)
    }
}

impl Same for Setting {
    fn same(&self, other: &Setting) -> bool {
        self == other
    }
}

impl Dup for Write {
    fn copy(&self, _: Global) -> Result<Write, NoMemory> {
        Ok(*self)
    }
}

impl Same for Write {
    fn same(&self, other: &Write) -> bool {
        self == other
    }
}

impl Dup for Plan {
    fn copy(&self, alloc: Global) -> Result<Plan, NoMemory> {
        Ok(Plan {
            alloc,
            keys: self.keys.copy(alloc)?,
            guards: self.guards.copy(alloc)?,
            settings: self.settings.copy(alloc)?,
        })
    }
}

impl Same for Plan {
    fn same(&self, other: &Plan) -> bool {
        self.keys.same(&other.keys)
            && self.guards.same(&other.guards)
            && self.settings.same(&other.settings)
    }
}

fn is_locked(keys: &[Key], key: &Key) -> bool
    ensures { result ≡ is_among keys.now key.now }
{
    keys.iter().any(|other| other.is_same(key))
}

fn repeats(keys: &[Key]) -> bool
    ensures { result ≡ repeats keys.now }
{
    let mut rest = keys;
    while let [first, more @ ..] = rest {
        if is_locked(more, first) {
            return true;
        }
        rest = more;
    }
    false
}

fn sets(settings: &[Setting], key: &Key) -> bool
    ensures { result ≡ sets settings.now key.now }
{
    settings.iter().any(|setting| setting.key.is_same(key))
}

fn sets_twice(settings: &[Setting]) -> bool
    ensures { result ≡ sets_twice settings.now }
{
    let mut rest = settings;
    while let [first, more @ ..] = rest {
        if sets(more, &first.key) {
            return true;
        }
        rest = more;
    }
    false
}

fn all_locked(keys: &[Key], guards: &[Guard], settings: &[Setting]) -> bool
    ensures { result ≡ all_locked keys.now guards.now settings.now }
{
    guards_locked(keys, guards) && settings_locked(keys, settings)
}

fn guards_locked(keys: &[Key], guards: &[Guard]) -> bool
    ensures { result ≡ list_all (λ guard. is_among keys.now guard.key) guards.now }
{
    guards.iter().all(|guard| is_locked(keys, &guard.key))
}

fn settings_locked(keys: &[Key], settings: &[Setting]) -> bool
    ensures { result ≡ list_all (λ setting. is_among keys.now setting.key) settings.now }
{
    settings.iter().all(|setting| is_locked(keys, &setting.key))
}

fn lock_keys(alloc: Global, keys: &[Key], settings: &[Setting]) -> Result<Row<Lock>, NoMemory>
    ensures { IfOk result (λ locks. locks ≡ locks_in settings.now keys.now) }
{
    let mut locks = Row::new(alloc);
    for key in keys {
        locks.push(Lock {
            key: *key,
            mode: mode_of(settings, key),
        })?;
    }
    Ok(locks)
}

fn mode_of(settings: &[Setting], key: &Key) -> Mode
    ensures { result ≡ mode_of settings.now key.now }
{
    if sets(settings, key) {
        Mode::Exclusive
    } else {
        Mode::Shared
    }
}

fn value_in(keys: &[Key], values: &[Option<u64>], key: &Key) -> Option<u64>
    ensures { result ≡ value_in keys.now values.now key.now }
{
    let mut left = keys;
    let mut right = values;
    while let [other, more @ ..] = left {
        let [value, rest @ ..] = right else {
            return None;
        };
        if other.is_same(key) {
            return *value;
        }
        left = more;
        right = rest;
    }
    None
}

fn guards_hold(guards: &[Guard], keys: &[Key], values: &[Option<u64>]) -> bool
    ensures { result ≡ guards_hold guards.now (value_in keys.now values.now) }
{
    guards.iter().all(|guard| guard_holds(guard, value_in(keys, values, &guard.key)))
}

fn guard_holds(guard: &Guard, value: Option<u64>) -> bool
    ensures { result ≡ nat_le guard.now.least (unwrap_or value 0) }
{
    value.unwrap_or(0) >= guard.least
}

pub(crate) fn set_by(how: &How, before: Option<u64>) -> u64
    ensures { result ≡ set_by how.now before }
{
    match how {
        How::Put(value) => *value,
        How::Plus(more) => before.unwrap_or(0).wrapping_add(*more),
        How::Minus(less) => before.unwrap_or(0).wrapping_sub(*less),
    }
}

fn writes_from(
    alloc: Global,
    settings: &[Setting],
    keys: &[Key],
    values: &[Option<u64>],
) -> Result<Row<Write>, NoMemory>
    ensures { IfOk result (λ writes. writes ≡ writes_from settings.now (value_in keys.now values.now)) }
{
    let mut writes = Row::new(alloc);
    for setting in settings {
        let value = set_by(&setting.how, value_in(keys, values, &setting.key));
        writes.push(Write {
            key: setting.key,
            value,
        })?;
    }
    Ok(writes)
}
